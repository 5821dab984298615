// Reading a sheet, line by line.

ghost use Rattle.std.specs.Prelude.{◌≡◌, ◌≤◌, length};
ghost use Rattle.graph.specs.Readings.{Empty, LinesAs, ReadAs, TextAs};

use crate::faults::{GraphFault, Refusal};
use crate::read_sheet::ReadSheet;
use text::lines::{after_header, next_entry, within_limit};

impl ReadSheet {
    // Takes the lines behind the header, of which the first is line 2.
    fn take_lines(&mut self, text: &[u8]) -> Result<(), GraphFault>
        requires short { length text.now ≤ 65536 }
        requires empty { Empty self.old }
        ensures { LinesAs text.now self.new result }
    {
        let mut rest = text;
        let mut at: u32 = 2;
        // kept: each turn takes the lines that the one before left, and the number is needed behind the last.
        while !rest.is_empty() {
            let (entry, more) = next_entry(rest, at)?;
            self.take(entry)
                .map_err(|refusal| GraphFault::Refused(refusal, at))?;
            rest = more;
            at += 1;
        }
        if self.actors.is_empty() {
            return Err(GraphFault::Refused(Refusal::OutOfTurn, at));
        }
        Ok(())
    }

    // Takes a whole text.
    fn take_text(&mut self, text: &[u8]) -> Result<(), GraphFault>
        requires empty { Empty self.old }
        ensures { TextAs text.now self.new result }
    {
        within_limit(text)?;
        let lines = after_header(text)?;
        self.take_lines(lines)
    }

    // Reads a sheet in place of the one before; after a refusal there is none.
    pub(crate) fn read(&mut self, text: &[u8]) -> Result<(), GraphFault>
        ensures { ReadAs text.now self.new result }
    {
        self.clear();
        let outcome = self.take_text(text);
        if outcome.is_err() {
            self.clear();
        }
        outcome
    }
}
