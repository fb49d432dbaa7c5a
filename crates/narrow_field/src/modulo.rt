// Sums, differences and products modulo p, right for every u32. The crates above build on these, so none asks anything of its caller.
ghost use Rattle.std.specs.Prelude.{◌≡◌, ◌+◌, ◌*◌, ◌/◌, ◌%◌, ◌<◌};
ghost use Rattle.arithmetic.specs.Modulo.{add, sub, neg, mul, pow};
ghost use Rattle.narrow_field.specs.Narrow.{p};

// The modulus as a u64. A constant cannot be made by `u64::from`.
const P: u64 = super::P as u64;

// x modulo p. What is left fits; `try_from` would want an answer where it does not.
fn reduced(x: u64) -> u32
    ensures { result ≡ x % p }
{
    (x % P) as u32
}

// a + b modulo p.
pub fn plus(a: u32, b: u32) -> u32
    ensures { result ≡ add p a b }
{
    reduced(u64::from(a) + u64::from(b))
}

// -a modulo p.
pub fn minus(a: u32) -> u32
    ensures { result ≡ neg p a }
{
    reduced(P - u64::from(a) % P)
}

// a - b modulo p.
pub fn less(a: u32, b: u32) -> u32
    ensures { result ≡ sub p a b }
{
    plus(a, minus(b))
}

// a · b + c modulo p.
pub fn times_plus(a: u32, b: u32, c: u32) -> u32
    ensures { result ≡ (a * b + c) % p }
{
    reduced(u64::from(a) * u64::from(b) + u64::from(c))
}

// a · b modulo p.
pub fn times(a: u32, b: u32) -> u32
    ensures { result ≡ mul p a b }
{
    times_plus(a, b, 0)
}

// What is done once the lowest binary digit of an exponent is taken: times the base where the digit is 1.
fn with_digit(done: u32, base: u32, left: u64) -> u32
    requires { done < p }
    ensures { (result < p) × (mul p result (pow p (mul p base base) (left / 2)) ≡ mul p done (pow p base left)) }
{
    if left % 2 == 1 {
        times(done, base)
    } else {
        done
    }
}

// a to the power e modulo p, by squaring: at most 64 rounds, until no digit is left. No place is counted.
pub fn to_power(a: u32, e: u64) -> u32
    ensures { result ≡ pow p a e }
{
    let mut done: u32 = 1;
    let mut base = a;
    let mut left = e;
    while left != 0 {
        done = with_digit(done, base, left);
        base = times(base, base);
        left /= 2;
    }
    done
}
