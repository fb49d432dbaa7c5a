// How long the lists are that an entry is lent (document 01, "Terms"). Every function takes every input.
ghost use Rattle.std.specs.Prelude.{◌≡◌, ◌^◌, min};
ghost use Rattle.refusals.specs.Limits.{max_vars};
ghost use Rattle.sumcheck.specs.Lent.{messages_length};

use refusals::MAX_VARS;

// x as a usize, which has no `From<u32>`.
pub fn wide(x: u32) -> usize
    ensures { result ≡ x }
{
    x as usize
}

// 2^vars, with no more than the most variables.
pub fn size(vars: u32) -> usize
    ensures { result ≡ 2 ^ min vars max_vars }
{
    1 << vars.min(MAX_VARS)
}

// How many numbers the messages have.
pub fn messages_length(vars: u32, degree: u32) -> usize
    ensures { result ≡ messages_length vars degree }
{
    wide(vars) * (wide(degree) + 1)
}
