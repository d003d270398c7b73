// A whole queue of frames in one call (document 02, W-207): what is asked of its lists before any frame is taken, and how many frames are. No state; callers:
// none yet.
#![tactic(auto)]

pub mod lists; // lists.rt: refusals 15 and 16, by the lengths of the lists alone
