ghost use Rattle.std.specs.Prelude.{Ok};
ghost use Rattle.model.specs.Effects.{as_number};
ghost use Rattle.processor.specs.View.{GivesQuietly, SetsQuietly};
ghost use Rattle.transfers.specs.Transfers.{raise_tree, bxh_tree, bxle_tree};

use bus::meaning::Bus;
use operands::addresses::following;
use operands::forms::Addressed;
use processor::cpu::Core;
use store::meaning::Store;
use words::sums::sum;

/// Raises an index register, and says whether it is then above its limit.
fn raised<S: Store, B: Bus>(m: &mut Core<S, B>, r1: u8) -> bool
    ensures { GivesQuietly S.Store.meaning B.Bus.devices (raise_tree r1) m.old (Ok (as_number result)) m.new }
{
    let x = m.reg(r1);
    let y = m.reg(following(r1, 1));
    let limit = m.reg(following(r1, 2));
    let index = sum(x, y);
    m.set_reg(r1, index);
    limit < index
}

/// Goes to the target if the raised index is above its limit, else on.
pub fn bxh<S: Store, B: Bus>(m: &mut Core<S, B>, o: Addressed)
    ensures { SetsQuietly S.Store.meaning B.Bus.devices (bxh_tree o.r1 o.a.at o.next.at) m.old m.new }
{
    if raised(m, o.r1) {
        m.jump(o.a)
    } else {
        m.jump(o.next)
    }
}

/// Goes to the target if the raised index is not above its limit, else on.
pub fn bxle<S: Store, B: Bus>(m: &mut Core<S, B>, o: Addressed)
    ensures { SetsQuietly S.Store.meaning B.Bus.devices (bxle_tree o.r1 o.a.at o.next.at) m.old m.new }
{
    let (a, next) = (o.next, o.a);
    bxh(m, Addressed { a, next, ..o })
}
