// The parameter row of a block (RFC 6330 section 5.6), and its check.
ghost use Rattle.std.specs.Prelude.{◌≡◌};
ghost use Rattle.field.specs.Answer.{outcome};
ghost use Rattle.headers.specs.Row.{row_checked};

use crate::beneath::row;
use crate::beneath::row::Numbers;
use field::refusal::Refusal;

// K', J, S, H and W, which the caller has, and L, P, B and P1, which follow from them.
#[derive(Clone, Copy, Debug, PartialEq, Eq)]
pub struct Row {
    pub kp: u32,
    pub j: u32,
    pub s: u32,
    pub h: u32,
    pub w: u32,
    pub l: u32,
    pub p: u32,
    pub b: u32,
    pub p1: u32,
}

// The one function that makes a record.
pub fn check(kp: u32, j: u32, s: u32, h: u32, w: u32) -> Result<Row, Refusal>
    ensures { outcome result ≡ row_checked kp j s h w }
{
    let Numbers { l, p, b, p1 } = row::derive(kp, j, s, h, w)?;
    Ok(Row {
        kp,
        j,
        s,
        h,
        w,
        l,
        p,
        b,
        p1,
    })
}
