//! What holds of the stream and of the writer that C has. These functions do nothing: what they ensure is what they are for.
ghost use Rattle.fit_c.specs.Laws.{StreamsMove, WritersMove};

/// A stream, open or closed, may go to another thread.
pub fn streams_move()
    ensures { StreamsMove }
{}

/// A writer, open or closed, may go to another thread.
pub fn writers_move()
    ensures { WritersMove }
{}
