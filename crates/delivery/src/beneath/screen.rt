// May a delivery be taken? The first thing that is wrong, in the order in which its bytes are read; the first 4,128 decide.
ghost use Rattle.std.specs.Prelude.{◌≡◌, ◌≤◌, length};
ghost use Rattle.headers.specs.Row.{Obeys};
ghost use Rattle.delivery.specs.Screen.{info_screen, rest_screen, row_screen, screen as Screen·screen, screened, shape_screen};
ghost use Rattle.delivery.specs.declared.beneath.screen.Stop.TheVariants as Stops;

use crate::beneath::layout;
use field::refusal::Refusal;
use headers::beneath::util;
use headers::row::Row;
use headers::transmission;
use headers::transmission::ObjectTransmissionInformation;

// Why not: a refusal of document 01, or what this program alone does not take.
#[derive(Clone, Copy, Debug, PartialEq, Eq)]
pub enum Stop {
    Refused(Refusal),
    TooLarge,
    SeveralBlocks,
}

impl From<Refusal> for Stop {
    ghost from_gives = { λ why stop. stop ≡ Stops.Refused why };

    fn from(why: Refusal) -> Stop {
        Stop::Refused(why)
    }
}

fn screen_shape(o: ObjectTransmissionInformation) -> Result<(), Stop>
    ensures { screened result ≡ shape_screen o }
{
    if o.num_source_blocks != 1 || o.num_sub_blocks != 1 {
        return Err(Stop::SeveralBlocks);
    }
    Ok(())
}

fn screen_info(o: ObjectTransmissionInformation) -> Result<(), Stop>
    ensures { screened result ≡ info_screen o }
{
    transmission::check(o)?;
    screen_shape(o)
}

fn screen_row(r: Row, k: u64, t: u16) -> Result<(), Stop>
    requires { Obeys r }
    ensures { screened result ≡ row_screen r k t }
{
    if k < 1 || k > u64::from(r.kp) {
        return Err(Stop::Refused(Refusal::BadCount));
    }
    if t > 1024 || r.l > 300 {
        return Err(Stop::TooLarge);
    }
    Ok(())
}

fn screen_rest(bytes: &[u8], k: u64, t: u16) -> Result<(), Stop>
    requires { 32 ≤ length bytes.now }
    ensures { screened result ≡ rest_screen bytes.now k t }
{
    let r = layout::row(bytes)?;
    screen_row(r, k, t)?;
    if bytes.len() < 4128 {
        return Err(Stop::Refused(Refusal::BadTables));
    }
    Ok(())
}

#[tactic(auto, unfolding(crate::specs::Screen::screen))]
pub fn screen(bytes: &[u8]) -> Result<(), Stop>
    ensures { screened result ≡ Screen·screen bytes.now }
{
    if bytes.len() < 32 {
        return Err(Stop::Refused(Refusal::WrongLength));
    }
    let o = layout::info(bytes);
    screen_info(o)?;
    let t = o.symbol_size;
    let k = util::int_div_ceil(o.transfer_length, u64::from(t));
    screen_rest(bytes, k, t)
}
