// Theorems that a comparison stands on, beside those of `Surrounded::of`. The contract of each function is one of them, so that the
// check asks for its proof; there is nothing to run.
ghost use Rattle.lts.specs.Theorems.{RoundsDecided, RoundsEquivalences, RoundsSound, StableRoundBisimulates, StableRoundExists, ClassesNumbered, BisimilarOrApart};
ghost use Rattle.lts.specs.Theorems.{SetsNumbered, EveryProcessReduced, StepsDecide, OneFirstPress, AttacksSound, AttacksNoShorter, AlwaysFirstShortest};

// A round of refinement is decided by its test.
#[tactic(auto, using(crate::proofs::Main::rounds_decided))]
pub fn rounds_decided()
    ensures { RoundsDecided }
{}

// Each round is an equivalence between states, and splits the classes of the one before.
#[tactic(auto, using(crate::proofs::Main::rounds_equivalences))]
pub fn rounds_equivalences()
    ensures { RoundsEquivalences }
{}

// What a strong bisimulation relates is together at every round.
#[tactic(auto, using(crate::proofs::Main::rounds_sound))]
pub fn rounds_sound()
    ensures { RoundsSound }
{}

// A stable round is a strong bisimulation.
#[tactic(auto, using(crate::proofs::Main::stable_round_bisimulates))]
pub fn stable_round_bisimulates()
    ensures { StableRoundBisimulates }
{}

// Some round below the number of states is stable.
#[tactic(auto, using(crate::proofs::Main::stable_round_exists))]
pub fn stable_round_exists()
    ensures { StableRoundExists }
{}

// The classes of a round are numbered as they are first met, and a count that does not grow means a stable round.
#[tactic(auto, using(crate::proofs::Ranks::classes_numbered))]
pub fn classes_numbered()
    ensures { ClassesNumbered }
{}

// Two states are bisimilar, or exactly one round is the first to separate them.
#[tactic(auto, using(crate::proofs::Main::bisimilar_or_apart_stands))]
pub fn bisimilar_or_apart()
    ensures { BisimilarOrApart }
{}

// The sets of signals and their numbers.
#[tactic(auto, using(crate::proofs::Main::sets_numbered))]
pub fn sets_numbered()
    ensures { SetsNumbered }
{}

// What `Surrounded::of` says of one source, of every process within the limits: the surrounded system keeps a plain system's limits,
// lists exactly the steps of the six rules, and has strongly bisimilar plain positions exactly where states are reactively bisimilar.
pub fn every_process_reduced()
    ensures { EveryProcessReduced }
{}

// Rounds, and the steps of a surrounded system, depend only on which steps there are.
#[tactic(auto, using(crate::proofs::SameSteps::steps_decide))]
pub fn steps_decide()
    ensures { StepsDecide }
{}

// A pair that is separated has exactly one first step that presses.
#[tactic(auto, using(crate::proofs::Main::one_first_press))]
pub fn one_first_press()
    ensures { OneFirstPress }
{}

// If an attack takes n presses, round n separates the pair.
#[tactic(auto, using(crate::proofs::Main::attacks_sound))]
pub fn attacks_sound()
    ensures { AttacksSound }
{}

// No attack takes fewer presses than the first round that separates the pair.
#[tactic(auto, using(crate::proofs::Main::attacks_no_shorter))]
pub fn attacks_no_shorter()
    ensures { AttacksNoShorter }
{}

// The attack that always presses the first suitable step takes exactly that many.
#[tactic(auto, using(crate::proofs::Main::always_first_shortest))]
pub fn always_first_shortest()
    ensures { AlwaysFirstShortest }
{}
