// The field.
ghost use Rattle.std.specs.Prelude.{◌≡◌};
ghost use Rattle.narrow_field.specs.Field.{sum_of, difference_of, negative_of, product_of, power_of, inverse_of};
ghost use Rattle.coded.specs.Coded.{of_number};

use coded::Answer;

// a + b.
#[unsafe(no_mangle)]
pub extern "C" fn sendurafi_sum(a: u32, b: u32) -> Answer
    ensures { result ≡ of_number (sum_of a b) }
{
    narrow_field::field::sum(a, b).into()
}

// a - b.
#[unsafe(no_mangle)]
pub extern "C" fn sendurafi_difference(a: u32, b: u32) -> Answer
    ensures { result ≡ of_number (difference_of a b) }
{
    narrow_field::field::difference(a, b).into()
}

// -a.
#[unsafe(no_mangle)]
pub extern "C" fn sendurafi_negative(a: u32) -> Answer
    ensures { result ≡ of_number (negative_of a) }
{
    narrow_field::field::negative(a).into()
}

// a · b.
#[unsafe(no_mangle)]
pub extern "C" fn sendurafi_product(a: u32, b: u32) -> Answer
    ensures { result ≡ of_number (product_of a b) }
{
    narrow_field::field::product(a, b).into()
}

// a to the power e.
#[unsafe(no_mangle)]
pub extern "C" fn sendurafi_power(a: u32, e: u64) -> Answer
    ensures { result ≡ of_number (power_of a e) }
{
    narrow_field::field::power(a, e).into()
}

// The inverse of a.
#[unsafe(no_mangle)]
pub extern "C" fn sendurafi_inverse(a: u32) -> Answer
    ensures { result ≡ of_number (inverse_of a) }
{
    narrow_field::inverse::inverse(a).into()
}
