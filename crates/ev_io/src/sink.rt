//! A sink: what takes the bytes of an answer or of a message.
ghost use Rattle.std.specs.Prelude.{◌≡◌, MatchResult};
ghost use Rattle.ev_io.specs.Sink.{SinkView, PutTakes, PutFails};

/// Why a piece was not taken whole.
#[derive(Clone, Copy)]
pub enum SinkError {
    /// The sink took only a first part of the piece, maybe none of it. Its count of faults rose.
    Failed,
}

/// Takes bytes, as standard output does.
pub trait Sink {
    ghost seen: { Self → SinkView };

    /// Takes the whole piece after what it has taken before.
    fn put(&mut self, piece: &[u8]) -> Result<(), SinkError>
        ensures { MatchResult result
            (λ _. PutTakes (seen self.old) piece.now (seen self.new))
            (λ _. PutFails (seen self.old) piece.now (seen self.new)) };
}
