// Job and flow files: reading and writing their records.
#![tactic(auto)]

pub mod bit_rows; // bit_rows.rt: rows of bits
pub mod common; // common.rt: the kinds, sizes and modes, bytes and nodes of a payload
pub mod encode; // encode.rt: values that are written as bytes
pub mod entries; // entries.rt: the entries of a sets record
pub mod flow_file; // flow_file.rt: reading a flow
pub mod job_file; // job_file.rt: reading a job
pub mod lists; // lists.rt: what is asked of an editor's lists
pub mod part; // part.rt: a record at the front of some bytes
pub mod questions; // questions.rt: what is asked of a payload
pub mod signals; // signals.rt: the signal lists written behind a flow
pub mod writer; // writer.rt: records written into a lent buffer
