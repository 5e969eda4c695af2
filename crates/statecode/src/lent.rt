// The numbers of a state, lent to be written.
#![tactic(auto)]

ghost use Rattle.std.specs.Prelude.{◌≡◌, true};
ghost use Rattle.statecode.specs.Code.{is_state};

#[derive(Drop)]
pub struct StateMut<'a> {
    pub numbers: &'a mut [u32; 122],
    pub ghost coded: { is_state numbers.now ≡ true },
}
