//! Laws of the wire form.
ghost use Rattle.proto_wire.specs.Spells.{ReadingIsTheSpelling, WritingIsASpelling, WrittenVarintsAreShortest};

/// What `fields` reads is the one list of fields that spells the bytes. Where it reads nothing, no list
/// spells them, and its place is that after the longest list that the bytes begin with.
pub fn reading_is_the_spelling()
    ensures { ReadingIsTheSpelling }
{}

/// What `put_uint` and `put_bytes` write spells the field, so it is read again, for a number of a field.
pub fn writing_is_a_spelling()
    ensures { WritingIsASpelling }
{}

/// Of all spellings of a varint the one that is written is the shortest.
pub fn written_varints_are_shortest()
    ensures { WrittenVarintsAreShortest }
{}
