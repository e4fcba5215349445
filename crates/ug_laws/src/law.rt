ghost use Rattle.ug_laws.specs.Calm.{CalmWorkersLive};
ghost use Rattle.ug_laws.specs.Coordinators.{CoordinatorsLoseNothing};
ghost use Rattle.ug_laws.specs.Laws.{HonestLoseNothing};
ghost use Rattle.ug_laws.specs.Workers.{CoordinatorsOfWorkersLoseNothing};

/// Whatever solvers send, in whatever order it is received, again or not at all, whoever joins and
/// whoever is lost: at every moment between two events each better point lies in a primitive node
/// held, as long as what was sent is honest. Reports of earlier runs may be received too.
pub fn honest_solvers_lose_nothing()
    ensures { HonestLoseNothing }
{}

/// Whatever comes of a coordinator's crew, whichever ranks are lost and whichever calls fail: at
/// every moment each better point lies in a primitive node held, as long as what is received is
/// honest.
pub fn coordinators_lose_nothing()
    ensures { CoordinatorsLoseNothing }
{}

/// Whatever comes of a coordinator's crew of workers, whatever their schedule and in whatever
/// pieces their bytes come: at every moment each better point lies in a primitive node held.
/// Nothing is assumed of what they send.
pub fn coordinators_of_workers_lose_nothing()
    ensures { CoordinatorsOfWorkersLoseNothing }
{}

/// If no call of such a crew failed and memory sufficed, no rank is lost: no bytes that come are
/// bad, and no answer to a report is the loss of its rank.
pub fn calm_workers_live()
    ensures { CalmWorkersLive }
{}
