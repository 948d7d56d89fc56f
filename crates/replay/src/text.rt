// The whole printout of a run.
ghost use Rattle.std.specs.Prelude.{◌≡◌, ◌<◌, length, IfOk, string_bytes, OnOk};
ghost use Rattle.ledger.specs.Pages.{Page, At};
ghost use Rattle.replay.specs.PageTurns.{printout, script_calls, RunsOn};
ghost use Rattle.replay.specs.Turns.{Printed};

use crate::session::Session;
use blockform::file::FileReader;
use coinsview::view::CoinsView;
use ledger::Ledger;
use printout::{Line, append};
use std::alloc::{AllocError, Global};
use views::condition::SpendCondition;

// The answers to all lines of the script, an LF after each. A block file that is too long answers alone.
pub fn printout_of<'a, V: CoinsView, C: SpendCondition>(
    heap: Global,
    blocks: &'a [u8],
    script: &'a [u8],
    ledger: &mut Ledger<V, C>,
) -> Result<String, AllocError>
    requires { V.CoinsView.ok ledger.old.state.view }
    ensures ok { V.CoinsView.ok ledger.new.state.view }
    ensures text { IfOk result (λ t. Printed blocks.now script.now (string_bytes t)) }
    ensures page { (q : Page) → At V.CoinsView C.SpendCondition q ledger.old → IfOk result (λ t. string_bytes t ≡ printout blocks.now script.now q) }
    ensures laws { OnOk result (RunsOn V.CoinsView C.SpendCondition blocks.now (script_calls blocks.now script.now) ledger.old ledger.new) }
    ensures unasked { 65536 < length blocks.now → ledger.new ≡ ledger.old }
{
    let mut text = String::new(heap);
    let file = match FileReader::new(blocks) {
        Ok(file) => file,
        Err(fault) => {
            append(&mut text, Line::Refused(fault.into()))?;
            return Ok(text);
        }
    };
    let mut session = Session::new(file, script);
    while let Some(line) = session.next_line(ledger) {
        append(&mut text, line)?;
    }
    Ok(text)
}
