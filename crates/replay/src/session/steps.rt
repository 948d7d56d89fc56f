// The steps of a run.
ghost use Rattle.std.specs.Prelude.{◌≡◌, ℕ, ◌+◌, ◌<◌, List, [], ◌∷◌, length, Option, MatchOption, OnSome};
ghost use Rattle.script.specs.Cuts.{lines_of};
ghost use Rattle.replay.specs.PageTurns.{turn_place, turn_calls, turn_line, PageTurn};
ghost use Rattle.replay.specs.Turns.{Turn, parsed};

use crate::answer::answer_line;
use crate::session::Session;
use blockform::file::FileReader;
use coinsview::view::CoinsView;
use ledger::Ledger;
use printout::Line;
use script::lines::cut;
use views::condition::SpendCondition;

impl<'a> Session<'a> {
    // A run from the first line of the script on.
    pub fn new(file: FileReader<'a>, script: &'a [u8]) -> Session<'a>
        ensures file { (result.file.file.now ≡ file.entry.file.now) × (result.file.place ≡ file.entry.place) }
        ensures script { (result.rest.now ≡ script.now) × (result.number ≡ 0) }
    {
        Session {
            file,
            rest: script,
            number: 0,
        }
    }

    // Performs the next line of the script and answers its line of the printout. None at the script's end.
    // No iterator: the ledger stays with the caller, who may read it between two lines.
    pub fn next_line<V: CoinsView, C: SpendCondition>(
        &mut self,
        ledger: &mut Ledger<V, C>,
    ) -> Option<Line>
        requires { V.CoinsView.ok ledger.old.state.view }
        ensures ok { V.CoinsView.ok ledger.new.state.view }
        ensures file { self.new.file.file.now ≡ self.old.file.file.now }
        ensures turn { MatchOption result ((lines_of self.old.rest.now ≡ []) × (self.new ≡ self.old) × (ledger.new ≡ ledger.old)) (λ x. (l : Option (List ℕ)) × (lines_of self.old.rest.now ≡ l ∷ lines_of self.new.rest.now) × (self.new.number ≡ self.old.number + 1) × Turn self.old.file.file.now self.new.number self.old.file.place self.new.file.place ledger.old ledger.new x (parsed l)) }
        ensures page { MatchOption result ((lines_of self.old.rest.now ≡ []) × (self.new ≡ self.old) × (ledger.new ≡ ledger.old)) (λ x. (l : Option (List ℕ)) × (lines_of self.old.rest.now ≡ l ∷ lines_of self.new.rest.now) × (self.new.number ≡ self.old.number + 1) × (self.new.file.place ≡ turn_place self.old.file.file.now self.old.file.place (parsed l)) × PageTurn V.CoinsView C.SpendCondition self.old.file.file.now (turn_calls self.old.file.file.now self.old.file.place (parsed l)) (turn_line self.old.file.file.now (self.old.number + 1) self.old.file.place (parsed l)) x ledger.old ledger.new) }
        ensures falls { OnSome result (length self.new.rest.now < length self.old.rest.now) }
    {
        let (line, rest) = cut(self.rest)?;
        let number = self.number + 1;
        let answer = answer_line(ledger, &mut self.file, number, line);
        self.rest = rest;
        self.number = number;
        Some(answer)
    }
}
