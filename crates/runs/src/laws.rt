// What holds of all runs, and of those of one example.
ghost use Rattle.access.specs.declared.rights.Right.TheVariants.{Impersonate};
ghost use Rattle.catalogue.specs.Sound.{Sound};
ghost use Rattle.runs.specs.Laboratory.{lab, lab_steps};
ghost use Rattle.runs.specs.Laws.{LargerAllows, LargerRuns, RunsGrow, RunsAppend, ActingIsUsing, SaturationCovers, SaturationTells, RulesAreSteps, TwoOrders, TurnsTell, CountsAreLimits};
ghost use Rattle.runs.specs.Runs.{UseBy, Use, ActsAs};

// The laws of runs stand.
pub fn laws_stand()
    ensures larger { LargerAllows }
    ensures mirrored { LargerRuns }
    ensures growing { RunsGrow }
    ensures appended { RunsAppend }
    ensures acting { ActingIsUsing }
    ensures covered { SaturationCovers }
    ensures exact { SaturationTells }
    ensures rules { RulesAreSteps }
    ensures orders { TwoOrders }
    ensures turns { TurnsTell }
    ensures limits { CountsAreLimits }
{}

// In the laboratory a session of account 4 comes to use impersonate on account 3 by four steps, and so to act as it.
pub fn laboratory_stands()
    ensures sound { Sound lab }
    ensures steps { UseBy lab 4 lab_steps 3 Impersonate }
    ensures uses { Use lab 4 3 Impersonate }
    ensures acts { ActsAs lab 4 3 }
{}
