ghost use Rattle.bus.specs.Touches.{Becomes};
ghost use Rattle.processor.specs.View.{Does, DoesQuietly, SetsQuietly};
ghost use Rattle.instructions.specs.Instructions.{balr_tree, lpswr_tree, epsr_tree, register_tree, short_tree};

use bus::meaning::Bus;
use computing::products::{divide, multiply};
use computing::turns::shift;
use decode::operations::{Function, RegisterOp, ShortOp};
use devices::input::rdr;
use devices::output::{Output, register_out};
use devices::sensing::ssr;
use model::Trap;
use operands::addresses::following;
use operands::branches::{branch_false, branch_true};
use operands::forms::Between;
use operands::functions::applied;
use processor::cpu::Core;
use registers::words::ProgramAddress;
use shifts::Shift;
use store::meaning::Store;
use transfers::between::{exbr, exhr, lbr, stbr};
use words::sums::difference;

/// Branch and link: the target is taken before the register changes.
fn balr<S: Store, B: Bus>(m: &mut Core<S, B>, o: Between)
    ensures { SetsQuietly S.Store.meaning B.Bus.devices (balr_tree o.r1 o.r2 o.next.at) m.old m.new }
{
    let target = m.reg(o.r2);
    m.set_reg(o.r1, u32::from(o.next));
    m.jump(ProgramAddress::new(target));
}

/// Loads a PSW from two registers.
fn lpswr<S: Store, B: Bus>(m: &mut Core<S, B>, r2: u8) -> Result<(), Trap>
    ensures { DoesQuietly S.Store.meaning B.Bus.devices (lpswr_tree r2) m.old result m.new }
{
    let status = m.reg(r2);
    let location = m.reg(following(r2, 1));
    m.set_status(status)?;
    m.jump(ProgramAddress::new(location));
    Ok(())
}

/// Exchanges the status: the first register takes the old one before the second is read.
fn epsr<S: Store, B: Bus>(m: &mut Core<S, B>, o: Between) -> Result<(), Trap>
    ensures { DoesQuietly S.Store.meaning B.Bus.devices (epsr_tree o.r1 o.r2 o.next.at) m.old result m.new }
{
    let old = m.status()?;
    m.set_reg(o.r1, old);
    let new = m.reg(o.r2);
    m.set_status(new)?;
    m.jump(o.next);
    Ok(())
}

/// An operation between two registers.
#[tactic(auto, using(bus::proofs::Touches::becomes_same))]
pub fn register<S: Store, B: Bus>(
    m: &mut Core<S, B>,
    operation: RegisterOp,
    o: Between,
) -> Result<(), Trap>
    ensures does { Does S.Store.meaning B.Bus.devices (register_tree operation o.r1 o.r2 o.next.at) m.old result m.new }
    ensures touches { Becomes B.Bus.touched m.old.bus m.new.bus }
{
    // A match and no table of functions: the arms take different operands, and some cannot stop.
    match operation {
        RegisterOp::Balr => balr(m, o),
        RegisterOp::Btcr => {
            let target = m.reg(o.r2);
            branch_true(m, o.r1, ProgramAddress::new(target), o.next);
        }
        RegisterOp::Bfcr => {
            let target = m.reg(o.r2);
            branch_false(m, o.r1, ProgramAddress::new(target), o.next);
        }
        RegisterOp::WithRegister(function) => {
            let y = m.reg(o.r2);
            applied(m, function, o.r1, y, o.next);
        }
        RegisterOp::Lpswr => lpswr(m, o.r2)?,
        RegisterOp::Mr => {
            let y = m.reg(o.r2);
            multiply(m, o.r1, y);
            m.jump(o.next);
        }
        RegisterOp::Dr => {
            let y = m.reg(o.r2);
            divide(m, o.r1, y, o.next)?;
        }
        // These four set registers and no more, as their contracts promise.
        RegisterOp::Exhr => {
            exhr(m, o.r1, o.r2);
            m.jump(o.next);
        }
        RegisterOp::Stbr => {
            stbr(m, o.r1, o.r2);
            m.jump(o.next);
        }
        RegisterOp::Lbr => {
            lbr(m, o.r1, o.r2);
            m.jump(o.next);
        }
        RegisterOp::Exbr => {
            exbr(m, o.r1, o.r2);
            m.jump(o.next);
        }
        RegisterOp::Epsr => epsr(m, o)?,
        RegisterOp::Wdr => register_out(m, Output::Data, o)?,
        RegisterOp::Rdr => rdr(m, o)?,
        RegisterOp::Ssr => ssr(m, o)?,
        RegisterOp::Ocr => register_out(m, Output::Command, o)?,
    }
    Ok(())
}

/// An operation with a number of four bits.
pub fn short<S: Store, B: Bus>(
    m: &mut Core<S, B>,
    operation: ShortOp,
    own: ProgramAddress,
    r1: u8,
    n: u8,
)
    ensures { SetsQuietly S.Store.meaning B.Bus.devices (short_tree operation own.at r1 n) m.old m.new }
{
    let next = own.plus(2);
    let distance = 2 * u16::from(n);
    match operation {
        ShortOp::Srls => {
            shift(m, Shift::Right, r1, u32::from(n));
            m.jump(next);
        }
        ShortOp::Slls => {
            shift(m, Shift::Left, r1, u32::from(n));
            m.jump(next);
        }
        ShortOp::Btbs => branch_true(m, r1, own.minus(distance), next),
        ShortOp::Btfs => branch_true(m, r1, own.plus(distance), next),
        ShortOp::Bfbs => branch_false(m, r1, own.minus(distance), next),
        ShortOp::Bffs => branch_false(m, r1, own.plus(distance), next),
        ShortOp::Lis => applied(m, Function::Load, r1, u32::from(n), next),
        ShortOp::Lcs => applied(m, Function::Load, r1, difference(0, u32::from(n)), next),
        ShortOp::Ais => applied(m, Function::Add, r1, u32::from(n), next),
        ShortOp::Sis => applied(m, Function::Subtract, r1, u32::from(n), next),
    }
}
