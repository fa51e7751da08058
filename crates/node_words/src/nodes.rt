//! A node of the tree as one word.

ghost use Rattle.std.specs.Prelude.{◌≡◌, ◌==◌, ◌/◌, ◌%◌, Some, IfSome};
ghost use Rattle.node_words.specs.Nodes.{IsLawful, any_file_in, directory_in, dirty_in, file_in, is_misplaced, is_outside, kind_in, node_after, node_of, node_shown, opens_in, removed_in, unpacked, word_of};

use access_model::{GateError, Kind, NodeInfo};

/// What a node word says: free, a file or a directory; the dirty mark; whether it is a file that was removed while it is open; the parent's
/// number (0 to 63); how many tasks have it open (0 to 64); the size in blocks.
#[derive(Clone, Copy, PartialEq, Eq)]
pub struct NodeWord {
    pub kind: Option<Kind>,
    pub dirty: bool,
    pub removed: bool,
    pub parent: u8,
    pub opens: u8,
    pub size: u32,
}

impl NodeWord {
    /// The word of a free node.
    pub const FREE: u64 = 0;

    /// The bit of the dirty mark.
    pub const DIRTY: u64 = 4;

    /// The word of a node: the kind in bits 0 and 1 (0 free, 1 a file, 2 a directory), the dirty mark in bit 2, the removed mark in bit
    /// 3, the parent in bits 8 to 13, how many tasks have it open in bits 16 to 22, the size in bits 32 to 63. It unpacks to the node
    /// again where it is lawful: each field fits its bits, a free node says nothing else, no directory is open, and what is removed is a
    /// clean file that is open.
    #[inline]
    pub fn pack(self) -> u64
        ensures word { result ≡ word_of self }
        ensures back { IsLawful self → unpacked result ≡ Some self }
    {
        self.bits()
    }

    /// Whether a word that was found is still its word: the node is as it was loaded.
    #[inline(always)]
    pub fn is_still(self, found: u64) -> bool
        ensures { result ≡ (found == word_of self) }
    {
        found == self.pack()
    }

    /// The fields, each in its place.
    #[inline]
    fn bits(self) -> u64
        ensures { result ≡ word_of self }
    {
        let kind = match self.kind {
            None => 0,
            Some(Kind::File) => 1,
            Some(Kind::Dir) => 2,
        };
        kind | u64::from(self.dirty) << 2
            | u64::from(self.removed) << 3
            | u64::from(self.parent) << 8
            | u64::from(self.opens) << 16
            | u64::from(self.size) << 32
    }

    /// Whether its kind is 3, a bit outside the fields is set, or it is of kind 0 and isn't 0.
    #[inline(always)]
    fn is_outside(word: u64) -> bool
        ensures { result ≡ is_outside (kind_in word) (word / 16 % 16) (word / 16384 % 4) (word / 8388608 % 512) word }
    {
        let kind = word & 3;
        let stray = (word >> 4) & 15 != 0 || (word >> 14) & 3 != 0 || (word >> 23) & 511 != 0;
        kind == 3 || stray || (kind == 0 && word != 0)
    }

    /// Whether more than 64 tasks have it open or some a directory, or it has the removed mark on anything but a clean file that is open.
    #[inline(always)]
    fn is_misplaced(word: u64) -> bool
        ensures { result ≡ is_misplaced (kind_in word) (dirty_in word) (removed_in word) (opens_in word) }
    {
        let kind = word & 3;
        let opens = (word >> 16) & 127;
        if opens > 64 || (kind == 2 && opens != 0) {
            return true;
        }
        let dirty = (word >> 2) & 1 == 1;
        (word >> 3) & 1 == 1 && (kind != 1 || dirty || opens == 0)
    }

    /// The node of a word. None where its kind is 3, where a bit outside the fields is set, where it is of kind 0 and isn't 0, where more
    /// than 64 tasks have it open or some a directory, and where it has the removed mark on anything but a clean file that is open.
    /// Any other word is that of the node again.
    #[inline]
    pub fn unpack(word: u64) -> Option<NodeWord>
        ensures node { result ≡ unpacked word }
        ensures back { IfSome result (λ node. IsLawful node × (word_of node ≡ word)) }
    {
        NodeWord::of(word)
    }

    /// Returns the node of a word, if the word is that of one.
    #[inline]
    fn of(word: u64) -> Option<NodeWord>
        ensures { result ≡ unpacked word }
    {
        if NodeWord::is_outside(word) || NodeWord::is_misplaced(word) {
            None
        } else {
            Some(NodeWord::fields(word))
        }
    }

    /// The fields of a word, whatever else it has.
    #[inline]
    pub fn fields(word: u64) -> NodeWord
        ensures { result ≡ node_of word }
    {
        let kind = match word & 3 {
            0 => None,
            1 => Some(Kind::File),
            _ => Some(Kind::Dir),
        };
        NodeWord {
            kind,
            dirty: (word >> 2) & 1 == 1,
            removed: (word >> 3) & 1 == 1,
            parent: ((word >> 8) & 63) as u8,
            opens: ((word >> 16) & 127) as u8,
            size: (word >> 32) as u32,
        }
    }

    /// What a word shows of its node: None where it is free.
    pub fn shown(word: u64) -> Option<NodeInfo>
        ensures { result ≡ node_shown word }
    {
        let node = NodeWord::fields(word);
        Some(NodeInfo {
            kind: node.kind?,
            parent: node.parent,
            size: node.size,
            dirty: node.dirty,
            removed: node.removed,
        })
    }

    /// The file of a word, or why a call refuses it; None where the word is no node's.
    #[inline]
    pub fn file(word: u64) -> Option<Result<NodeWord, GateError>>
        ensures { result ≡ file_in word }
    {
        let node = NodeWord::unpack(word)?;
        Some(match node.kind {
            None => Err(GateError::NoEntry),
            Some(Kind::File) if node.removed => Err(GateError::NoEntry),
            Some(Kind::File) => Ok(node),
            Some(Kind::Dir) => Err(GateError::IsDir),
        })
    }

    /// The file of a word, removed or not, or why a close refuses it; None where the word is no node's.
    #[inline]
    pub fn any_file(word: u64) -> Option<Result<NodeWord, GateError>>
        ensures { result ≡ any_file_in word }
    {
        let node = NodeWord::unpack(word)?;
        Some(match node.kind {
            None => Err(GateError::NoEntry),
            Some(Kind::File) => Ok(node),
            Some(Kind::Dir) => Err(GateError::IsDir),
        })
    }

    /// The directory of a word, or why a call refuses it; None where the word is no node's.
    pub fn directory(word: u64) -> Option<Result<NodeWord, GateError>>
        ensures { result ≡ directory_in word }
    {
        let node = NodeWord::unpack(word)?;
        Some(match node.kind {
            None => Err(GateError::NoEntry),
            Some(Kind::File) => Err(GateError::NotDir),
            Some(Kind::Dir) => Ok(node),
        })
    }
}

/// The number of the next of so many nodes, or of so many of anything else, if there is one. It stands in line, since each step of a row
/// of steps asks it.
#[inline(always)]
pub fn following(node: u8, nodes: u8) -> Option<u8>
    ensures { result ≡ node_after node nodes }
{
    if u16::from(node) + 1 < u16::from(nodes) {
        Some(node + 1)
    } else {
        None
    }
}
