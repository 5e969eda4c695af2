// The allowed rank, read off a table of the first 32 Fibonacci numbers.
#![tactic(auto)]

ghost use Rattle.std.specs.Prelude.{◌≡◌, ◌+◌, ◌≤◌, ◌<◌, ℕ, get_or, leb, length};
ghost use Rattle.std.specs.List.{prefix_len};
ghost use Rattle.machine.specs.Allowed.{fibonacci, fib, allowed_rank};

const FIBONACCI: [u32; 32] = [
    1, 1, 2, 3, 5, 8, 13, 21, 34, 55, 89, 144, 233, 377, 610, 987, 1597, 2584, 4181, 6765, 10946,
    17711, 28657, 46368, 75025, 121393, 196418, 317811, 514229, 832040, 1346269, 2178309,
];

// The whole table: the number at place i is the Fibonacci number at place i + 1.
fn fibonacci() -> &'static [u32; 32]
    ensures table { result.now ≡ fibonacci }
    ensures rule { (i : ℕ) → i < 32 → get_or result.now i 0 ≡ fib (i + 1) }
{
    &FIBONACCI
}

// How many numbers at most b a list begins with.
fn count_at_most(rising: &[u32], b: u32) -> usize
    ensures value { result ≡ prefix_len (λ x. leb x b) rising.now }
    ensures within { result ≤ length rising.now }
{
    rising.iter().take_while(|&&f| f <= b).count()
}

// The largest R whose Fibonacci number R + 3 is at most 2m, and 0 for m = 0. The table begins with number 1, so R = 0 stands third.
pub fn allowed_rank(m: u32) -> u32
    requires { m ≤ 1000000 }
    ensures { result ≡ allowed_rank m }
{
    let fit = count_at_most(&fibonacci()[2..], 2 * m);
    fit.saturating_sub(1) as u32
}
