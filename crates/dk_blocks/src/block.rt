// A block that is being read.
ghost use Rattle.std.specs.Prelude.{◌≡◌, ◌||◌};
ghost use Rattle.dk_decl.specs.Comments.{is_comment};
ghost use Rattle.dk_blocks.specs.History.{is_declaration, is_list_of_implementors};

use bumpalo::Bump;
use dk_base::first_word;
use dk_decl::{DeclBlock, Header};
use dk_trace::RecordReader;

/// A block that is being read, with the arena in which its values lie and what its header lines have put in force.
#[derive(Drop)]
pub(crate) struct Block<'a> {
    pub(crate) arena: &'a Bump,
    pub(crate) header: Header,
    pub(crate) state: State<'a>,
}

/// What the lines of a block so far come to.
#[derive(Drop)]
pub(crate) enum State<'a> {
    /// Comments and header lines alone, the last of which has this number, if there is one.
    Front { last: Option<u64> },
    /// The front of a declaration that begins at this line.
    Declaration { line: u64, reader: DeclBlock },
    /// A list of implementors, which is read past.
    Implementors,
    /// The front of a sample record.
    Record { reader: RecordReader<'a> },
}

/// Whether a line is a comment: it begins with `#` or `//`.
#[tactic(auto, unfolding(dk_decl::specs::Comments::is_comment))]
pub fn is_comment(bytes: &[u8]) -> bool
    ensures { result ≡ is_comment bytes.now }
{
    bytes.starts_with(b"#") || bytes.starts_with(b"//")
}

/// Whether this first line begins a declaration: its first word is `ppt`, or it is `DECLARE`.
#[tactic(auto, unfolding(crate::specs::History::is_declaration))]
pub fn is_declaration(bytes: &[u8]) -> bool
    ensures { result ≡ is_declaration bytes.now }
{
    first_word(bytes) == b"ppt".as_slice() || bytes == b"DECLARE".as_slice()
}

/// Whether this first line begins a list of implementors.
#[tactic(auto, unfolding(crate::specs::History::is_list_of_implementors))]
pub fn is_list_of_implementors(bytes: &[u8]) -> bool
    ensures { result ≡ is_list_of_implementors bytes.now }
{
    bytes == b"ListImplementors".as_slice()
}
