// What is said of a file: specs/Judge.antt has the verdict, specs/Answers.antt its form for C. The code makes that form of an answer.

#![tactic(auto)]

pub mod answer;
