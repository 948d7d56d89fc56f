// Making a ledger, and starting it.
ghost use Rattle.std.specs.Prelude.{◌≡◌, true, false, length, is_ok};
ghost use Rattle.ledger.specs.Book.{fresh};
ghost use Rattle.ledger.specs.Pages.{unstarted, At};
ghost use Rattle.ledger.specs.Standing.{started, Stands};
ghost use Rattle.ledger.specs.Starting.{in_range, start_answer, start_terms};

use crate::fault::LedgerFault;
use crate::terms::{Parameters, Terms};
use crate::{ActiveChain, Ledger, Tip};
use coinsview::view::CoinsView;
use unwinding::chainstate::Chainstate;
use views::condition::SpendCondition;

impl<V: CoinsView, C: SpendCondition> Ledger<V, C> {
    // A ledger that is not started yet.
    pub fn new(view: V, condition: C) -> Ledger<V, C>
        requires { V.CoinsView.ok view }
        ensures ok { V.CoinsView.ok result.state.view }
        ensures parts { (result.state.view ≡ view) × (result.condition ≡ condition) × (started result ≡ false) }
        ensures page { At V.CoinsView C.SpendCondition (unstarted (V.CoinsView.most view) (C.SpendCondition.opens condition) (V.CoinsView.coins view)) result }
    {
        Ledger {
            state: Chainstate::new(view),
            condition,
            active: None,
        }
    }

    // Starts the ledger over a view with no coins, once.
    pub fn start(&mut self, parameters: Parameters, id: &[u8; 32]) -> Result<(), LedgerFault>
        requires { V.CoinsView.ok self.old.state.view }
        ensures ok { V.CoinsView.ok self.new.state.view }
        ensures answer { result ≡ start_answer (started self.old) (in_range parameters) (length (V.CoinsView.coins self.old.state.view)) }
        ensures same { is_ok result ≡ false → self.new ≡ self.old }
        ensures begins { is_ok result ≡ true → Stands V.CoinsView C.SpendCondition (fresh (start_terms (V.CoinsView.most self.old.state.view) (C.SpendCondition.opens self.old.condition) parameters id.now)) self.new }
    {
        if self.active.is_some() {
            return Err(LedgerFault::Started);
        }
        let terms = Terms::try_from(parameters)?;
        if self.state.view.count() > 0 {
            return Err(LedgerFault::NotEmpty);
        }
        self.state.undo.keep(0);
        self.active = Some(ActiveChain {
            terms,
            tip: Tip { id: *id, height: 0 },
            kept: 0,
        });
        Ok(())
    }
}
