//! Audits a whole report by more rules than `run_audit`.
//!
//! The verdict is yes, or names an item and a rule: the first item that breaks a rule together with the items before it,
//! and the least rule that this item breaks.
//!
//! The rules, by number:
//!
//! 1. to 6. are those of `run_audit`.
//! 7. The items stand in order of their lines, those of a block in any order, and each line gives all that it asks for. A
//!    line of blocks gives those of its ends by turns, until an end refuses. A tick tells what it lacks, link by link, and
//!    puts as many frames as it told, of lanes that leave its node, also in a settle. Outside of blocks they stand link by
//!    link, in order of their offsets. In a settle nodes tick in order, and each frame comes to its receiver, lane by lane, before the next
//!    round begins. Each other line gives one item. A report that lacks an item at its end breaks this rule on the line
//!    behind its last one.
//! 8. A manager says that it is down exactly if it is: behind a crash, behind an event in which it stopped, and if its start
//!    at the beginning failed, until it is started. Only of one that is up is it said that it was up.
//! 9. The blocks of an end are 0, 1, 2 and so on, and it refuses one for being full exactly if it has 1,024. If an end
//!    stopped at a block, the next number tells whether it had taken it.
//! 10. A frame leaves over a link that is up, and uses bytes that its sender has received. It leaves no gap behind those
//!     before it, but in a block, behind a start of its sender, or behind a frame that the wire refused.
//! 11. The received bytes of a ledger are what its sender's blocks brought, also where the sender stopped at one. What is
//!     unused lies behind all frames. Only a sender that was started has burnt bytes.
//! 12. As many keys or chunks are made as the line asks for, at its node. Their names follow those that the node gave before,
//!     as far as the report tells how many these were. A pair that isn't allowed is refused as such, and no other.
//! 13. As many keys are handed out as the line asks for, of its size, named by its node and in order of their names, or those
//!     that it names, none twice. Who may not ask is refused as such, and nobody else. Other refusals fit what was asked for.
//!     No more keys of a pair and a size are ready than were made and not handed to their master. A key is refused as handed
//!     only to who got it.
//! 14. A frame that comes to its receiver is the line's, and the wire has it. Its name is one of the told kind. If one bit
//!     was changed, or anybody made the octets, the answer is one that this bit, or these octets, allow. A payload has a
//!     length of its kind. Who sends a fact knows it, and who acknowledges it took it over the same link; what comes again was
//!     taken before. Of nodes that stopped in something that they were asked this isn't asked. A receiver lacks bytes exactly
//!     if the frame needs more than it has, and tells how many these are.
//! 15. A call on streams is answered by a status that it can have, for the stream and the index that it names.
//! 16. A response is that of the line's node, and its message is one of its status.
//! 17. A tick is that of the line's node. A short item tells what was received, over a link that is up, and its need passes
//!     that. What it has used ends at or behind the last frame, and within what was received.
//! 18. A key is shown as the line asks for. It has bytes exactly if the node needs them, as far as its state tells that. Only
//!     the node that named it has made it, and only others keep it or pass it on. It was given exactly if the node handed it
//!     out, unless the node stopped in something that it was asked, or hands out keys without their names.
//!     In 13, 14 and 18, a name that is told of is one that its node can have given.
//! 19. A frame has the length of some payload, and so has one for which a lane lacks bytes.
//! 20. A ledger names the line's lane, and a set link the line's link and state.
#![tactic(auto)]

mod arrivals;
mod blocks;
mod findings;
mod frames;
mod handings;
mod judge;
mod knowledge;
mod lines;
mod managers;
mod names;
mod order;
mod pools;
mod rests;
mod tables;
mod text;
mod tracks;
mod turns;
mod whole_verdict;

pub use text::whole_text;
pub use whole_verdict::whole_audit;
