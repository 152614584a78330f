//! How the commands end that read one record: the answer by the result of their work.

mod one_record;

pub(crate) use one_record::record_answer;
