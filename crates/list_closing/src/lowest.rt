// The lowest number that fails a test: one loop for all such tests.
ghost use Rattle.std.specs.Prelude.{◌≡◌, ℕ, Bool, ◌<◌, IfSome};
ghost use Rattle.list_closing.specs.Walk.{LowestFailing};

// Of the numbers below n, if one fails it.
pub fn lowest_failing<F: Fn(usize) -> bool>(n: usize, test: F) -> Option<usize>
    requires { (p : ℕ) → p < n → F.pre test p }
    ensures within { IfSome result (λ p. p < n) }
    ensures lowest { (f : ℕ → Bool) → ((p : ℕ) (r : Bool) → p < n → F.post test p r → r ≡ f p) → LowestFailing f n result }
{
    for p in 0..n {
        if !test(p) {
            return Some(p);
        }
    }
    None
}
