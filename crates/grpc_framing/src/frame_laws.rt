//! Laws of the framing, each a call that does nothing.
ghost use Rattle.grpc_framing.specs.FrameLaws.{CutIsTheOnlyOne, AnyPieces};

/// Bytes are the frames of one list of payloads, in their order, and a rest that begins with no frame. There is no
/// other such list.
pub fn cut_is_the_only_one()
    ensures { CutIsTheOnlyOne }
{}

/// After any list of `feed` on new frames, in whatever pieces, the payloads are those of the framing
/// of all bytes fed up to the first fault, what waits is its rest, and each answer is that of the
/// bytes fed so far.
pub fn any_pieces()
    ensures { AnyPieces }
{}
