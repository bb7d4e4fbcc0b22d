// The answer of a call on a table: done, or refused. Its number and what is returned beside are those of any answer that may be refused.
use rules::refusal::Refusal;

pub type Reply = Result<(), Refusal>;
