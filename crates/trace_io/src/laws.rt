//! What is known of the histories of devices. The functions do nothing; their contracts are the laws.

ghost use Rattle.std.specs.Prelude.{◌≡◌, replicate};
ghost use Rattle.trace_io.specs.Stream.{AgreesWithTold};

use crate::device::{Source, Target};
use crate::endless::Endless;
use crate::reader::Reading;
use crate::writer::Writing;
use std::io::{Read, Write};

/// A source around a reader of std tells the bytes still to come where that one tells them.
pub fn reading_tells<R: Read>(reader: &Reading<R>)
    ensures given { ⟦<Reading<R> as Source>⟧.given reader.now ≡ reader.now.given }
    ensures remaining { ⟦<Reading<R> as Source>⟧.remaining reader.now ≡ R.remaining reader.now.inner }
{}

/// A target around a writer of std has the history of its writes, and holds the bytes that the writer tells.
pub fn writing_tells<W: Write>(writer: &Writing<W>)
    ensures taken { ⟦<Writing<W> as Target>⟧.taken writer.now ≡ writer.now.taken }
    ensures contents { ⟦<Writing<W> as Target>⟧.contents writer.now ≡ W.contents writer.now.inner }
{}

/// A byte without end gives that byte alone.
pub fn endless_tells(source: &Endless)
    ensures given { ⟦<Endless as Source>⟧.given source.now ≡ replicate source.now.given source.now.byte }
{}

/// What a source gave agrees with the bytes that it told, as those of a slice.
pub fn told_agrees()
    ensures { AgreesWithTold }
{}
