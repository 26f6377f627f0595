// What the counter's rule says, in plain words.
ghost use Rattle.std.specs.Prelude.{ℕ, List};
ghost use Rattle.life_ids.specs.declared.view.View.{View};
ghost use Rattle.life_ids.specs.Rule.{IdRule};
ghost use Rattle.life_ids.specs.Laws.{BelowNext, FromOne, SeatsApart, BatchesApart, TakenApart, IdsAscend, HasRoom};

/// What follows where the rule holds of the counter's word and the views of all seats, as it does at the moments that
/// `draw` and `give_back` tell of. It does nothing.
///
/// No id stands in two batches, of one seat or of two; each is from 1 on and below the counter's next batch; the ids
/// that a seat took ascend; what can still be taken has room below 2^63 + 1; and a batch that is taken has no id of the
/// batches that any seat has at that moment.
pub fn ids_differ()
    ensures below { (total : ℕ) (words : List ℕ) (views : List View) → IdRule total words views → BelowNext words views }
    ensures from_one { (total : ℕ) (words : List ℕ) (views : List View) → IdRule total words views → FromOne views }
    ensures seats { (total : ℕ) (words : List ℕ) (views : List View) → IdRule total words views → SeatsApart views }
    ensures batches { (total : ℕ) (words : List ℕ) (views : List View) → IdRule total words views → BatchesApart views }
    ensures taken { TakenApart }
    ensures ascend { (total : ℕ) (words : List ℕ) (views : List View) → IdRule total words views → IdsAscend views }
    ensures room { (total : ℕ) (words : List ℕ) (views : List View) → IdRule total words views → HasRoom words views }
{}
