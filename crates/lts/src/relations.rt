// Relations of any kind. A fact in a contract cannot quantify over relations in types, but a generic function can: what its contract says
// holds for every type that gives one.
ghost use Rattle.std.specs.Prelude.{ℕ};
ghost use Rattle.lts.specs.Relations.{RelationBisimilar, RelationReactive};

// A relation between states.
pub trait Relation {
    ghost relates: { Self → ℕ → ℕ → Type 0 };
}

// Two relations between states: plainly, and under each set of signals.
pub trait ReactiveRelation {
    ghost plainly: { Self → ℕ → ℕ → Type 0 };

    ghost under: { Self → ℕ → ℕ → ℕ → Type 0 };
}

// What any strong bisimulation relates is together at every round, and bisimilar by a Boolean relation.
pub fn relations_bisimilar<R: Relation>(relation: &R)
    ensures { RelationBisimilar (R.relates relation.now) }
{}

// What any reactive bisimulation holds plainly is reactively bisimilar by Boolean relations.
pub fn relations_reactive<R: ReactiveRelation>(relation: &R)
    ensures { RelationReactive (R.plainly relation.now) (R.under relation.now) }
{}
