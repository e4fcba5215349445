ghost use Rattle.ug_serve.specs.CrewLaws.{WorkersAreHeard};
ghost use Rattle.ug_serve.specs.Endings.{ServicesEndInOneWay};
ghost use Rattle.ug_serve.specs.Laws.{TracesAreTranscripts, WorkersAreHonest};

/// What a worker at a link sends is true by what it received and sent before, whatever comes: it is
/// in order, and an end of a task is sent only where the whole box was searched but for what was
/// handed.
pub fn traces_are_transcripts()
    ensures { TracesAreTranscripts }
{}

/// What such workers send is honest, where no ticket was ordered twice.
pub fn workers_are_honest()
    ensures { WorkersAreHonest }
{}

/// The bytes received from a rank of a crew of workers, whatever the schedule, are those of a
/// worker that receives a prefix of what was sent to the rank.
pub fn workers_are_heard()
    ensures { WorkersAreHeard }
{}

/// The link shows how its service ended: its count of faults or its end shows that it is lost, and
/// its bytes, if it shows them, whether Ended was sent or an invalid order was received.
pub fn services_end_in_one_way()
    ensures { ServicesEndInOneWay }
{}
