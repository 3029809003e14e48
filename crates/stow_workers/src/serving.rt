//! One connection served from its reader to its writer.
ghost use Rattle.std.specs.Prelude.{◌≡◌};
ghost use Rattle.stow_workers.specs.Sent.{written_of};
ghost use Rattle.stow_workers.specs.Talks.{ServesConnection, ReaderFails};

use crate::client::Client;
use crate::gate::Gate;
use crate::served::Served;
use crate::sink::Sink;
use crate::source::Source;
use std::alloc::Allocator;
use stow_shared::stow_house::door::Door;
use stow_shared::stow_login::tenants::Tenants;

/// The most bytes that are read at once.
const PIECE: usize = 4096;

/// Serves one connection. It reads pieces of at most 4,096 bytes, serves all messages that are whole with each,
/// through the door where they are requests of a tenant's store, and writes the replies before the next piece
/// is read, or once more than 65,536 bytes of them wait. Where a write fails, the messages of its piece are
/// still served. The gate is passed before each call of the door and after it. Memory comes from `alloc`: want
/// of it ends the connection, but for a request to which the door replies so.
pub fn serve_connection<R: Source, W: Sink, D: Door<A>, G: Gate, A: Allocator + Copy>(
    alloc: A,
    reader: &mut R,
    writer: &mut W,
    tenants: &Tenants<A>,
    door: &mut D,
    gate: &G,
) -> Served
    ensures serves { ServesConnection D.answers tenants.now result
        (R.remaining reader.old) (R.remaining reader.new) door.old door.new
        (written_of (W.contents writer.old) (W.failures writer.old))
        (written_of (W.contents writer.new) (W.failures writer.new)) }
    ensures reader { ReaderFails result (R.failures reader.old) (R.failures reader.new) }
    ensures same_reader { R.borrow reader.new ≡ R.borrow reader.old }
    ensures same_writer { W.borrow writer.new ≡ W.borrow writer.old }
{
    let mut client = Client::new(alloc);
    let mut piece = [0u8; PIECE];
    for _ in 0..u64::MAX {
        let Ok(count) = reader.read(&mut piece) else {
            return Served::ReadFailed;
        };
        if count == 0 {
            return Served::Ended;
        }
        if let Some(served) = client.serve_piece(&piece[..count], writer, tenants, door, gate) {
            return served;
        }
    }
    Served::Ended
}
