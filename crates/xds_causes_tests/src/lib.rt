// Tests of what is told of lines that are refused. Nothing else stands here.
#![tactic(auto)]

#[cfg(test)]
mod causes;
