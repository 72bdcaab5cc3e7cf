//! What is told as JSON is read as it is meant.
ghost use Rattle.json_reading.specs.Laws.{ItemsAreReadAsMeant, MessagesAreReadAsMeant, RemarksAreReadAsMeant, ComparisonsAreReadAsMeant, PairsAreReadAsMeant};

/// A line of JSON is read as the object that it means, where its numbers have 64 bits: of an item, of a message with its
/// place, and as a reply, of a remark that explains a log, of a comparison, and of a pair of identifiers.
pub fn lines_are_read_as_meant()
    ensures items { ItemsAreReadAsMeant }
    ensures messages { MessagesAreReadAsMeant }
    ensures remarks { RemarksAreReadAsMeant }
    ensures comparisons { ComparisonsAreReadAsMeant }
    ensures pairs { PairsAreReadAsMeant }
{}
