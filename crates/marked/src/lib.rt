// Document 01's worked examples, computed on the definitions: its session in full, and the lines either side of the line. And two example days of document
// 02's E8.
//
// It has no code: what it shows is that the definitions give the numbers that the paper prints.
#![tactic(auto)]
