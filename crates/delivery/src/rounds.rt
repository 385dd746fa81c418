//! The rounds that carry a file.
ghost use Rattle.std.specs.Prelude.{◌≡◌, ℕ, ◌*◌, ◌<◌, ◌≤◌, List, length, IfOk, MatchResult};
ghost use Rattle.file.specs.Packets.{packets};
ghost use Rattle.file.specs.Spelling.{spelling_of};
ghost use Rattle.link.specs.OfScripted.{new_link};
ghost use Rattle.transfer.specs.Calls.{state_of};
ghost use Rattle.delivery.specs.Follows.{Small};
ghost use Rattle.delivery.specs.Outcome.{linked};
ghost use Rattle.delivery.specs.Phases.{AdmitsOn, CarriesOut, Closes, Opens, SmallAfter};

use super::exchange::Delivery;
use super::outcome::Outcome;
use super::progress::Progress;
use carried::Carried;
use file::{FILE_MOST, packet, packet_count};
use job::ShortFile;
use link::{PlainLink, ScriptedLink};
use refusal::Refusal;
use sender::{Open, Sealed};
use source::Source;
use transfer::OpenTransfer;

// The most rounds that a job takes.
const ROUNDS: u32 = 64_000;

/// Carries the file over a new transfer, in rounds, into the buffer.
pub(crate) fn carry<C: Carried, S: Source + Drop>(
    source: S,
    forward: ScriptedLink,
    file: ShortFile<'_>,
    buffer: &mut [u8; FILE_MOST],
) -> Result<Outcome, Refusal>
    requires { forward.queue.count ≡ 0 }
    ensures { (script : List ℕ) → forward ≡ new_link 16 400 64 script → CarriesOut (linked C.Field.means C.Carried.carries S.Source.means) file.entry.bytes.now source script buffer.old result buffer.new }
{
    let count = packet_count::<C>(file.bytes.len() as u32);
    let progress = Progress::<C>::new();
    let transfer = OpenTransfer::<C, S, ScriptedLink, PlainLink>::new(
        source,
        forward,
        PlainLink::new(),
    );
    let mut open = Delivery { transfer, progress };
    let opened = open.open_rounds(file, count, buffer)?;
    let Delivery { transfer, progress } = open;
    let Some(made) = opened else {
        return Ok(progress.spent());
    };
    let transfer = transfer.seal();
    let mut sealed = Delivery { transfer, progress };
    sealed.sealed_rounds(made, count, buffer)?;
    let Delivery { progress, .. } = sealed;
    progress.finish(count)
}

impl<C: Carried, S: Source> Delivery<Open, C, S> {
    // Rounds until all packets are admitted. Answers how many were made before the one that admits the last, which is
    // still to be ended, or none where the rounds are used up.
    fn open_rounds(
        &mut self,
        file: ShortFile<'_>,
        count: u32,
        buffer: &mut [u8; FILE_MOST],
    ) -> Result<Option<u32>, Refusal>
        requires count { count ≡ packets (spelling_of C.Field.means.q) (length file.bytes.now) }
        requires small { Small 0 self.old.progress self.old.transfer.forward }
        ensures courses { Opens (linked C.Field.means C.Carried.carries S.Source.means) file.entry.bytes.now result self.old buffer.old self.new buffer.new }
        ensures small { IfOk result (λ n. SmallAfter n self.new.progress self.new.transfer.forward) }
    {
        let mut admitted = 0;
        for made in 0..ROUNDS {
            admitted = admit_all(&mut self.transfer, file, count, admitted)?;
            if admitted == count {
                return Ok(Some(made));
            }
            self.exchange(buffer)?;
        }
        Ok(None)
    }
}

// Admits from the next packet on, until one is refused or none is left, and answers how many are then admitted.
fn admit_all<C: Carried, S: Source>(
    transfer: &mut OpenTransfer<C, S, ScriptedLink, PlainLink>,
    file: ShortFile<'_>,
    count: u32,
    admitted: u32,
) -> Result<u32, Refusal>
    requires { (count ≡ packets (spelling_of C.Field.means.q) (length file.bytes.now)) × (admitted ≤ count) }
    ensures { MatchResult result (λ t. (t ≤ count) × AdmitsOn (linked C.Field.means C.Carried.carries S.Source.means) file.entry.bytes.now C admitted t (state_of transfer.old) (state_of transfer.new) × (transfer.new.forward ≡ transfer.old.forward)) (λ _. ⊥) }
{
    for number in admitted..count {
        let symbols = packet::<C>(file.bytes, number)?;
        let Ok(_) = transfer.admit(&symbols) else {
            return Ok(number);
        };
    }
    Ok(count)
}

impl<C: Carried, S: Source> Delivery<Sealed, C, S> {
    // Rounds once the transfer is sealed, until the sender has heard that all is released.
    fn sealed_rounds(
        &mut self,
        made: u32,
        count: u32,
        buffer: &mut [u8; FILE_MOST],
    ) -> Result<(), Refusal>
        requires { (made < 64000) × (Small (4 * made) self.old.progress self.old.transfer.forward) }
        ensures { Closes (linked C.Field.means C.Carried.carries S.Source.means) made count result self.old buffer.old self.new buffer.new }
    {
        for round in made..ROUNDS {
            self.exchange(buffer)?;
            if self.progress.heard == count {
                return Ok(());
            }
        }
        Ok(())
    }
}
