// Tests of every number below a bound: one loop for all of them.
ghost use Rattle.std.specs.Prelude.{◌≡◌, ℕ, Bool, ◌<◌};
ghost use Rattle.machine_pws.specs.Machine.{all_below};
ghost use Rattle.machine_pws.specs.Tagged.{any_below};

// Every number below n passes the test.
pub fn all_below<F: Fn(usize) -> bool>(n: usize, test: F) -> bool
    requires { (p : ℕ) → p < n → F.pre test p }
    ensures { (f : ℕ → Bool) → ((p : ℕ) (r : Bool) → p < n → F.post test p r → r ≡ f p) → result ≡ all_below n f }
{
    for p in 0..n {
        if !test(p) {
            return false;
        }
    }
    true
}

// Some number below n does.
pub fn any_below<F: Fn(usize) -> bool>(n: usize, test: F) -> bool
    requires { (p : ℕ) → p < n → F.pre test p }
    ensures { (f : ℕ → Bool) → ((p : ℕ) (r : Bool) → p < n → F.post test p r → r ≡ f p) → result ≡ any_below n f }
{
    for p in 0..n {
        if test(p) {
            return true;
        }
    }
    false
}
