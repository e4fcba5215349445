ghost use Rattle.ug_stream.specs.Laws.{StreamsAreReadInOneWay};

/// Whatever the pieces, the messages that are given are the one list whose frames, and then what
/// waits, are the bytes that came.
pub fn streams_are_read_in_one_way()
    ensures { StreamsAreReadInOneWay }
{}
