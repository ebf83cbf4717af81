// The laws of the bound. Each is the contract of a function that does nothing.
ghost use Rattle.tag_bound.specs.Laws.{FewKeys, FrameBlocks};

/// For two different texts of at most n blocks each, length blocks included, at most n different keys give the same
/// difference of hashes. A text must have fewer than 2^64 octets, so that its length is an element of the field.
pub fn law_few_keys()
    ensures { FewKeys }
{}

/// The text of a frame, which is its header and its masked payload, has at most 74 blocks.
pub fn law_frame_blocks()
    ensures { FrameBlocks }
{}
