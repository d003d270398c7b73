// One circuit's records (the adjacency entries of ISO 10589) in words that the caller lends: places of four words each.
// Document 01, "What the gateway holds". Any words mean some table; what is stored is read back. Callers: room; its sizes: gateway.
#![tactic(auto)]

pub mod word; // word.rt: the word that holds a record's small fields
pub mod slot; // slot.rt: a place's words: load, store, clear, close
pub mod probe; // probe.rt: questions about a place that read only the words they need
