//! The table of looks: what files look like that are no logs, what is said of them, and what makes logs of them.

ghost use Rattle.std.specs.Prelude.{◌≡◌, map};
ghost use Rattle.trace_report.specs.Looks.{look_row};

/// What a log looks like that is refused in its first line, or by the bytes that it begins with. One that first bytes
/// tell stands in [`TOLD`], too: that none is missing there no proof says, since the definitions take that list from
/// here.
#[derive(Clone, Copy)]
pub enum Look {
    /// A file that gzip has compressed.
    Gzip,
    /// A file that zstd has compressed.
    Zstandard,
    /// A file that xz has compressed.
    Xz,
    /// A file that bzip2 has compressed.
    Bzip2,
    /// An archive of zip.
    Zip,
    /// A text with a byte order mark in front.
    ByteOrderMark,
    /// A text of two bytes for each letter.
    Utf16,
    /// What candump writes for the screen.
    Screen,
    /// A Vector ASC file.
    Asc,
    /// A Vector BLF file.
    Blf,
    /// A file of measured data (ASAM MDF 4).
    Mf4,
    /// A PCAN TRC file.
    Trc,
    /// A capture in the form of libpcap.
    Pcap,
    /// A capture in the form pcapng, which followed that of libpcap.
    Pcapng,
    /// A profile of a bench, a file of TOML.
    Profile,
    /// A log whose stamps have a date.
    Date,
    /// Values with commas or semicolons between them.
    Csv,
    /// A log whose stamps have more than six decimals.
    Nanoseconds,
}

/// What is known of files that look so, a row of the table of looks.
#[derive(Clone, Copy)]
pub(crate) struct LookRow {
    /// The first bytes that tell it, each alone: none, where it takes more to tell.
    pub(crate) first: &'static [&'static [u8]],
    /// What is said of one, behind its name.
    pub(crate) words: &'static str,
    /// What unpacks or reads it, or what else makes a log of it.
    pub(crate) command: &'static str,
}

/// The looks that first bytes tell.
pub(crate) const TOLD: [Look; 15] = [
    Look::Gzip,
    Look::Zstandard,
    Look::Xz,
    Look::Bzip2,
    Look::Zip,
    Look::ByteOrderMark,
    Look::Utf16,
    Look::Screen,
    Look::Asc,
    Look::Blf,
    Look::Mf4,
    Look::Trc,
    Look::Pcap,
    Look::Pcapng,
    Look::Profile,
];

/// What reads the files of other tools.
const READS: &str = "python3 -m udsnorm reads it";

/// The table of looks.
pub(crate) fn look_row(look: Look) -> LookRow
    ensures first { map (λ first. first.now) result.first.now ≡ (look_row look).first }
    ensures words { result.words.now ≡ (look_row look).words }
    ensures command { result.command.now ≡ (look_row look).command }
{
    let (first, words, command): (&[&[u8]], &str, &str) = match look {
        Look::Gzip => (
            &[&[0x1F, 0x8B]],
            "looks compressed with gzip",
            "zcat unpacks it",
        ),
        Look::Zstandard => (
            &[&[0x28, 0xB5, 0x2F, 0xFD]],
            "looks compressed with zstd",
            "zstdcat unpacks it",
        ),
        Look::Xz => (
            &[&[0xFD, 0x37, 0x7A, 0x58, 0x5A, 0x00]],
            "looks compressed with xz",
            "xzcat unpacks it",
        ),
        Look::Bzip2 => (&[b"BZh"], "looks compressed with bzip2", "bzcat unpacks it"),
        Look::Zip => (
            &[&[0x50, 0x4B, 0x03, 0x04]],
            "looks like a zip archive",
            "unzip -p unpacks it",
        ),
        Look::ByteOrderMark => (
            &[&[0xEF, 0xBB, 0xBF]],
            "begins with a byte order mark, which an editor has put in front",
            "save it without",
        ),
        Look::Utf16 => (
            &[&[0xFF, 0xFE], &[0xFE, 0xFF]],
            "looks like a text in UTF-16",
            "iconv -f UTF-16 -t ASCII makes a log of one",
        ),
        Look::Screen => (
            &[b"  ", b" ("],
            "looks like candump's form for the screen",
            "python3 -m udsnorm reads it, and candump -l records a log",
        ),
        Look::Asc => (&[b"date ", b"base "], "looks like a Vector ASC file", READS),
        Look::Blf => (&[b"LOGG"], "looks like a Vector BLF file", READS),
        Look::Mf4 => (
            &[b"MDF     4", b"UnFinMF 4"],
            "looks like an MF4 file",
            READS,
        ),
        Look::Trc => (&[b";"], "looks like a PCAN TRC file", READS),
        Look::Pcap => (
            &[
                &[0xA1, 0xB2, 0xC3, 0xD4],
                &[0xD4, 0xC3, 0xB2, 0xA1],
                &[0xA1, 0xB2, 0x3C, 0x4D],
                &[0x4D, 0x3C, 0xB2, 0xA1],
            ],
            "looks like a pcap capture",
            READS,
        ),
        Look::Pcapng => (
            &[&[0x0A, 0x0D, 0x0D, 0x0A]],
            "looks like a pcapng capture",
            READS,
        ),
        Look::Profile => (
            &[b"drop", b"mask", b"[[unit", b"# "],
            "looks like a profile",
            "--profile takes it",
        ),
        Look::Date => (&[], "looks like a log whose stamps have a date", READS),
        Look::Csv => (
            &[],
            "looks like a CSV file",
            "python3 -m udsnorm reads those of SavvyCAN and python-can",
        ),
        Look::Nanoseconds => (
            &[],
            "looks like a log whose stamps have more than six decimals",
            "python3 -m udsnorm rounds them",
        ),
    };
    LookRow {
        first,
        words,
        command,
    }
}
