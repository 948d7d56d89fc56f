// Any list of calls on a ledger.
ghost use Rattle.std.specs.Prelude.{◌≡◌, min, true, List, [], ◌∷◌, ◌++◌, length, take};
ghost use Rattle.ledger.specs.Book.{Book};
ghost use Rattle.ledger.specs.Laws.{Laws};
ghost use Rattle.ledger.specs.PageLaws.{PageLaws, Performed};
ghost use Rattle.ledger.specs.Pages.{Page, At};
ghost use Rattle.ledger.specs.Runs.{book_after, answer_of, part as part_of};
ghost use Rattle.ledger.specs.Standing.{started, Stands, Follows};
ghost use Rattle.ledger.specs.declared.runs.Answer.{Answer as Said};
ghost use Rattle.ledger.specs.declared.runs.Call.{Call as Asked};
ghost use Rattle.ledger.specs.declared.runs.Call.TheVariants.{Flush as FlushCall};

use crate::fault::LedgerFault;
use crate::terms::Parameters;
use crate::{Balance, Connected, Disconnected, Ledger, Tip};
use coins::coin::{Coin, Lock};
use coins::outpoint::Outpoint;
use coinsview::view::CoinsView;
use views::condition::SpendCondition;

// One call, with its arguments. The bytes of a block are a part of the bytes that a list of calls is given with: by two
// places, since a range cannot be copied and a call can.
#[derive(Clone, Copy)]
pub enum Call {
    Start {
        parameters: Parameters,
        id: [u8; 32],
    },
    Connect {
        from: usize,
        to: usize,
    },
    Disconnect,
    Settle(u64),
    Flush,
    Tip,
    Look(Outpoint),
    Next(Option<Outpoint>),
    Balance(Lock),
}

// What a call answered: a variant for each of `Call`, so that one list holds the answers of any calls.
#[derive(Clone, Copy)]
pub enum Answer {
    Start(Result<(), LedgerFault>),
    Connect(Result<Connected, LedgerFault>),
    Disconnect(Result<Disconnected, LedgerFault>),
    Settle(Result<u64, LedgerFault>),
    Flush(Result<(), LedgerFault>),
    Tip(Result<Tip, LedgerFault>),
    Look(Result<Option<Coin>, LedgerFault>),
    Next(Result<Option<(Outpoint, Coin)>, LedgerFault>),
    Balance(Result<Balance, LedgerFault>),
}

// The bytes from one place to another, as far as there are any.
fn part(bytes: &[u8], from: usize, to: usize) -> &[u8]
    ensures { result.now ≡ part_of from to bytes.now }
{
    let end = to.min(bytes.len());
    &bytes[from.min(end)..end]
}

impl<V: CoinsView, C: SpendCondition> Ledger<V, C> {
    // Makes one call.
    fn make(&mut self, bytes: &[u8], call: Call) -> Answer
        requires { V.CoinsView.ok self.old.state.view }
        ensures ok { V.CoinsView.ok self.new.state.view }
        ensures performed { Performed V.CoinsView C.SpendCondition bytes.now call result self.old self.new }
        ensures bottom { call ≡ FlushCall → started self.old ≡ true → V.CoinsView.bottom self.new.state.view ≡ V.CoinsView.coins self.new.state.view }
    {
        match call {
            Call::Start { parameters, id } => Answer::Start(self.start(parameters, &id)),
            Call::Connect { from, to } => Answer::Connect(self.connect(part(bytes, from, to))),
            Call::Disconnect => Answer::Disconnect(self.disconnect()),
            Call::Settle(n) => Answer::Settle(self.settle(n)),
            Call::Flush => Answer::Flush(self.flush()),
            Call::Tip => Answer::Tip(self.tip()),
            Call::Look(at) => Answer::Look(self.look(&at)),
            Call::Next(from) => Answer::Next(self.next(from.as_ref())),
            Call::Balance(lock) => Answer::Balance(self.balance(&lock)),
        }
    }

    // Performs one call. Whatever calls came before it, the laws over runs hold after it too.
    pub fn perform(&mut self, bytes: &[u8], call: Call) -> Answer
        requires { V.CoinsView.ok self.old.state.view }
        ensures ok { V.CoinsView.ok self.new.state.view }
        ensures law { Follows V.CoinsView C.SpendCondition self.old self.new result (book_after bytes.now call) (answer_of bytes.now call) }
        ensures bottom { call ≡ FlushCall → started self.old ≡ true → V.CoinsView.bottom self.new.state.view ≡ V.CoinsView.coins self.new.state.view }
        ensures performed { Performed V.CoinsView C.SpendCondition bytes.now call result self.old self.new }
        ensures page_laws { (p : Page) (cs : List Asked) (said : List Said) → PageLaws V.CoinsView C.SpendCondition p bytes.now cs said self.old → PageLaws V.CoinsView C.SpendCondition p bytes.now (cs ++ (call ∷ [])) (said ++ (result ∷ [])) self.new }
    {
        self.make(bytes, call)
    }

    // Performs calls in order and notes their answers, as many as both lists have. Answers how many.
    pub fn run(&mut self, bytes: &[u8], calls: &[Call], answers: &mut [Answer]) -> usize
        requires { V.CoinsView.ok self.old.state.view }
        ensures ok { V.CoinsView.ok self.new.state.view }
        ensures count { result ≡ min (length calls.now) (length answers.old) }
        ensures laws { (k : Book) → Stands V.CoinsView C.SpendCondition k self.old → Laws V.CoinsView C.SpendCondition k bytes.now (take result calls.now) (take result answers.new) self.new }
        ensures page_laws { (p : Page) → At V.CoinsView C.SpendCondition p self.old → PageLaws V.CoinsView C.SpendCondition p bytes.now (take result calls.now) (take result answers.new) self.new }
    {
        // Two lists of the caller's, in the caller's memory. By index: of the elements that an adapter of `iter_mut` wrote, no
        // proof knows anything.
        let count = calls.len().min(answers.len());
        for i in 0..count {
            answers[i] = self.perform(bytes, calls[i]);
        }
        count
    }
}
