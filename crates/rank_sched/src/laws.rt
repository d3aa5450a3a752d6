//! Laws of plans, of runs, and of the hauls of runs.

ghost use Rattle.rank_sched.specs.Laws as laws;

/// Every event that isn't refused leads to one state, one worker ends in one way, runs are sound
/// from the start on, and a machine that was refused memory has failed and stays so.
pub fn runs_are_sound()
    ensures steps { laws.StepsAreComputed }
    ensures choice { laws.OneWorkerHasNoChoice }
    ensures way { laws.OneWorkerEndsOneWay }
    ensures records { laws.RecordsAloneAreOne }
    ensures sound { laws.RunsAreSound }
    ensures seen { laws.SeenIsAtMost }
    ensures memory { laws.WantOfMemoryFails }
    ensures failed { laws.FailedStaysFailed }
{}

/// A run that has stopped has sound hauls, and as many events as it must have. The records of sound
/// hauls are those of a sound run, and hauls that have such records are sound. A sound run of some
/// workers is also one of more workers.
pub fn ends_are_sound()
    ensures ends { laws.EndsAreSound }
    ensures events { laws.EventsAreCounted }
    ensures records { laws.RecordsAreSound }
    ensures hauls { laws.HaulsOfRecordsAreSound }
    ensures fewer { laws.FewerWorkersAreSound }
    ensures none { laws.NoHauls }
{}

/// A haul stays sound as records are added, and so do its turns and the floors that it saw.
pub fn hauls_grow()
    ensures haul { laws.HaulsGrow }
    ensures turns { laws.TurnsGrow }
    ensures upward { laws.UpwardGrows }
{}

/// Two groups of workers, of which one has the next numbers, are sound together if each group is.
pub fn workers_join()
    ensures sound { laws.WorkersJoin }
    ensures hauls { laws.HaulsJoin }
    ensures stopped { laws.StopsJoin }
    ensures turns { laws.TurnsJoin }
{}

/// Sound hauls are right, whatever the guess, and nothing is undone if the guess is low. A
/// line is a scan for one cause: its morsel wasn't skipped, or the skip was undone.
pub fn hauls_are_right()
    ensures raised { laws.RaisedIsReached }
    ensures skips { laws.SkipsAreRight }
    ensures back { laws.NoneIsTakenBack }
    ensures scans { laws.ScansHaveOneCause }
    ensures onwards { laws.SkipsStayOnwards }
    ensures best { laws.BestAreThere }
    ensures pool { laws.PoolDecides }
{}

/// A plan is the only list of its query's morsels in the order in which they are drawn. What it
/// asks is fair, and its best candidates are the best of its query.
pub fn plans_have_the_best()
    ensures one { laws.PlanIsTheOne }
    ensures fair { laws.PlansAreFair }
    ensures best { laws.PlanHasTheBest }
{}
