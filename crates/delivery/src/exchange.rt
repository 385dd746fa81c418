//! What a round does once packets are admitted: a send, fetches until none, hears until none.
ghost use Rattle.std.specs.Prelude.{ℕ, ◌+◌, List};
ghost use Rattle.delivery.specs.Follows.{Leads, LeadsOn, Small};
ghost use Rattle.delivery.specs.Outcome.{linked};
ghost use Rattle.delivery.specs.Rounds.{send_one, fetch_all_lem, hear_all_lem, exchange};

use super::progress::Progress;
use carried::Carried;
use file::FILE_MOST;
use link::{PlainLink, ScriptedLink};
use refusal::Refusal;
use source::Source;
use transfer::Transfer;

/// A job under way: its transfer, and what the program keeps of the answers.
#[derive(Drop)]
pub(crate) struct Delivery<P, C, S> {
    pub(crate) transfer: Transfer<P, C, S, ScriptedLink, PlainLink>,
    pub(crate) progress: Progress<C>,
}

// The counts' bound grows by four with each send, so it is a clause of each call and no fact of the type.
impl<P, C: Carried, S: Source> Delivery<P, C, S> {
    /// Sends once, fetches until there is no frame, and hears until there is no report.
    pub(crate) fn exchange(&mut self, buffer: &mut [u8; FILE_MOST]) -> Result<(), Refusal>
        requires { Small 256000 self.old.progress self.old.transfer.forward }
        ensures leads { LeadsOn (linked C.Field.means C.Carried.carries S.Source.means) exchange result self.old buffer.old self.new buffer.new }
        ensures small { (n : ℕ) → Small n self.old.progress self.old.transfer.forward → Small (n + 4) self.new.progress self.new.transfer.forward }
    {
        self.send_once();
        let fetched = self.fetch_all(buffer);
        self.hear_all();
        fetched
    }

    // Sends, unless the window is empty.
    fn send_once(&mut self)
        requires { Small 256000 self.old.progress self.old.transfer.forward }
        ensures leads { (buffer : List ℕ) → Leads (linked C.Field.means C.Carried.carries S.Source.means) send_one self.old buffer self.new buffer }
        ensures small { (n : ℕ) → Small n self.old.progress self.old.transfer.forward → Small (n + 4) self.new.progress self.new.transfer.forward }
    {
        match self.transfer.send() {
            Ok(_) => self.progress.tally.sent += 1,
            // The window is empty: there is nothing to send.
            Err(_empty) => {}
        }
    }

    // Fetches until there is no frame, and keeps the answers.
    fn fetch_all(&mut self, buffer: &mut [u8; FILE_MOST]) -> Result<(), Refusal>
        requires { Small 256004 self.old.progress self.old.transfer.forward }
        ensures leads { LeadsOn (linked C.Field.means C.Carried.carries S.Source.means) fetch_all_lem result self.old buffer.old self.new buffer.new }
        ensures small { (n : ℕ) → Small n self.old.progress self.old.transfer.forward → Small n self.new.progress self.new.transfer.forward }
    {
        while let Some(answer) = self.transfer.fetch(&mut self.progress.numbers).transpose() {
            self.progress.keep(answer, buffer)?;
        }
        Ok(())
    }

    // Hears until there is no report.
    fn hear_all(&mut self)
        ensures leads { (buffer : List ℕ) → Leads (linked C.Field.means C.Carried.carries S.Source.means) hear_all_lem self.old buffer self.new buffer }
        ensures small { (n : ℕ) → Small n self.old.progress self.old.transfer.forward → Small n self.new.progress self.new.transfer.forward }
    {
        while let Some(report) = self.transfer.hear().transpose() {
            if let Ok((released, _)) = report {
                self.progress.heard = released;
            }
        }
    }
}
