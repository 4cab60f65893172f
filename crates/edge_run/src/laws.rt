//! Laws of texts and of what runs come to.
ghost use Rattle.std.specs.Prelude.{◌≡◌, ℕ, List, Option, Result};
ghost use Rattle.ast.specs.declared.statement.Query.{Query};
ghost use Rattle.ev_schema.specs.declared.schema.Schema.{Schema};
ghost use Rattle.db_store.specs.Fits.{Fits};
ghost use Rattle.db_check.specs.declared.store.Store.{Store};
ghost use Rattle.edge_run.specs.Data.{IsStore};
ghost use Rattle.edge_run.specs.Due.{Due, SomethingIsDue};
ghost use Rattle.edge_run.specs.Judgement.{Judgement, Matter, Decides, IsJudged};
ghost use Rattle.edge_run.specs.Plan.{Plan, Verdict, Comes};
ghost use Rattle.edge_run.specs.Query.{IsQuery};
ghost use Rattle.edge_run.specs.Refusal.{Refusal};
ghost use Rattle.edge_run.specs.Schema.{IsBuilt};
ghost use Rattle.edge_run.specs.Task.{Task};

/// Each text spells at most one query.
pub fn one_query()
    ensures { (text : List ℕ) (a : Query) (b : Query) → IsQuery text a → IsQuery text b → a ≡ b }
{}

/// Of each text at most one thing is decided, whatever it is judged as: what it stands for, or the one refusal with its one place.
pub fn one_decision()
    ensures { (j : Judgement) (text : List ℕ) (a : Result (Matter j) Refusal) (b : Result (Matter j) Refusal) → Decides j text a → Decides j text b → a ≡ b }
{}

/// Of each text something is decided, whatever it is judged as: want of memory aside, no text is left open.
pub fn each_decision()
    ensures { (j : Judgement) (text : List ℕ) → IsJudged j text }
{}

/// Over what the names hold, a run comes to at most one verdict.
pub fn one_verdict()
    ensures { (plan : Plan (List ℕ)) (files : List ℕ → Option (List ℕ)) (v : Verdict (List ℕ)) (w : Verdict (List ℕ)) → Comes files plan v → Comes files plan w → v ≡ w }
{}

/// Over what the names hold, at most one verdict is due for a task: so what `exact` of `run_words` says comes is all that is due.
pub fn one_due()
    ensures { (task : Task) (files : List ℕ → Option (List ℕ)) (v : Verdict (List ℕ)) (w : Verdict (List ℕ)) → Due task files v → Due task files w → v ≡ w }
{}

/// Over what the names hold, some verdict is due for each task. With `one_due` it is exactly one: so no definition that decides nothing
/// hides behind want of memory.
pub fn something_is_due()
    ensures { (task : Task) (files : List ℕ → Option (List ℕ)) → SomethingIsDue task files }
{}

/// The objects of data that are accepted fit the schema that was accepted before them.
pub fn accepted_objects_fit()
    ensures { (schema_text : List ℕ) (data_text : List ℕ) (schema : Schema) (store : Store) → IsBuilt schema_text schema → IsStore schema data_text store → Fits schema store.objects }
{}
