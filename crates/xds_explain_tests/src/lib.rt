// Tests of explanations and of pictures. Nothing else stands here.
#![tactic(auto)]

#[cfg(test)]
mod drawing;
#[cfg(test)]
mod explaining;
