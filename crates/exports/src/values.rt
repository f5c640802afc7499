// How a row comes from the caller, and an answer reaches it.
ghost use Rattle.std.specs.Prelude.{◌≡◌, List, ℕ, ◌<◌, ◌≤◌, ◌^◌, length, ltb};
ghost use Rattle.field.specs.Answer.{given, outcome, unless};
ghost use Rattle.exports.specs.Call.{Called, Kept, code, listed, then_roomed};
ghost use Rattle.exports.specs.Intakes.{lacking_in, solution_code};
ghost use Rattle.exports.specs.Numbers.{row};

use elimination::verdict::Verdict;
use field::refusal::Refusal;
use headers::row::Row;

// The record of a row as C hands it over: any nine numbers. The call below verifies them.
pub fn handed_row(k: u32, j: u32, s: u32, h: u32, w: u32, l: u32, p: u32, b: u32, p1: u32) -> Row
    ensures { result ≡ row k j s h w l p b p1 }
{
    Row {
        kp: k,
        j,
        s,
        h,
        w,
        l,
        p,
        b,
        p1,
    }
}

// Whether a call was done: 0, or the code of its refusal.
pub fn told<T: Drop>(answer: Result<T, Refusal>) -> u32
    ensures { result ≡ code (outcome answer) }
{
    match answer {
        Ok(_) => 0,
        Err(why) => why.code(),
    }
}

// A slice that the caller lent has room for n values.
pub fn room(out: &[u64], n: usize) -> Result<(), Refusal>
    ensures { outcome result ≡ unless (ltb (length out.now) n) 8 (given tt) }
{
    if out.len() < n {
        return Err(Refusal::WrongLength);
    }
    Ok(())
}

// A value as the N numbers that C is handed of it.
pub trait Numbers<const N: usize> {
    ghost numbers: { Self → List ℕ };

    fn numbers(self) -> [u64; N]
        ensures { result ≡ numbers self };
}

// The numbers of an answer at the front of the caller's slice. A refusal comes before 8, that the slice has no room for them. N is bounded since an array
// has fewer than 2^63 bytes.
pub fn hand<const N: usize, T: Numbers<N> + Drop>(
    answer: Result<T, Refusal>,
    out: &mut [u64],
) -> Result<(), Refusal>
    requires { N < 2 ^ 60 }
    ensures { Called (then_roomed out.old (listed T.numbers (outcome answer))) out.old out.new (code (outcome result)) }
{
    let values = answer?.numbers();
    room(out, N)?;
    out[..N].copy_from_slice(&values);
    Ok(())
}

// A verdict's number, or its refusal's; how many independent rows an open system lacks goes to the front of `shortfall`.
pub fn tell(answer: Result<Verdict, Refusal>, shortfall: &mut [u64]) -> u32
    requires { 1 ≤ length shortfall.old }
    ensures code { result ≡ solution_code answer }
    ensures shortfall { Kept (lacking_in answer) shortfall.old shortfall.new }
{
    match answer {
        Ok(Verdict::Solved) => 0,
        Ok(Verdict::Contradiction) => 100,
        Ok(Verdict::Open(rows)) => {
            shortfall[0] = u64::from(rows);
            101
        }
        Err(why) => why.code(),
    }
}
