//! Scripts with their trees. Texts with faults, and the meanings of strings and numbers, are in
//! `examples/rows`.

use super::print::check_trees;
use std::alloc::AllocError;

#[test]
fn scripts_have_their_trees(rt: HostRuntime) -> Result<(), AllocError> {
    check_trees(
        &rt,
        &[
            (b"", ""),
            (b"keep;discard;", "keep@1;discard@1;"),
            (b"stop; discard;", "stop@1;discard@1;"),
            (b"kep;", "kep@1;"),
            (b"_a9 ;# done", "_a9@1;"),
            (b"# first\r\nkeep\n;\n", "keep@2;"),
            (b"keep keep;", "keep@1 keep@1;"),
            (b"a{}", "a@1{}"),
            (b"a{b;c{}}d;", "a@1{b@1;c@1{}}d@1;"),
            (b"a \"b\":c 1;", "a@1 \"b\"1 :c@1 #1@1;"),
            (b"a [\"b\"];", "a@1 [\"b\"1];"),
            (b"a [\"b\",\n\"c\"];", "a@1 [\"b\"1\"c\"2];"),
            (b"a\nb 1\nc :t {}", "a@1 b@2 #1@2 c@3 :t@3{}"),
            (b"a 1 (b) {}", "a@1 #1@1 (b@1,){}"),
            (
                b"a (b 1, c (d, e :t), f g);",
                "a@1 (b@1 #1@1,c@1 (d@1,e@1 :t@1,),f@1 g@1,);",
            ),
            (b"a b (c);", "a@1 b@1 (c@1,);"),
            (b"a :Tag\n:_t9;", "a@1 :Tag@1 :_t9@2;"),
            (
                b"/*1*/a/*2*/[/*3*/\"b\"/*4*/,#5\n\"c\"/*6*/]/*7*/(/*8*/d/*9*/,/*10*/e/*11*/)/*12*/{/*13*/}/*14*/",
                "a@1 [\"b\"1\"c\"2] (d@2,e@2,){}",
            ),
        ],
    )
}

#[test]
fn scripts_of_the_standard_have_their_trees(rt: HostRuntime) -> Result<(), AllocError> {
    check_trees(
        &rt,
        &[
            // Examples of RFC 5228, sections 2.3, 2.7.3, 3.1 and 9.
            (
                b"if size :over 100K { # this is a comment\n    discard;\n}\n",
                "if@1 size@1 :over@1 #102400@1{discard@2;}",
            ),
            (
                b"if size :over 100K { /* this is a comment\n    this is still a comment */ discard /* this is a comment\n    */ ;\n}\n",
                "if@1 size@1 :over@1 #102400@1{discard@2;}",
            ),
            (
                b"if header :contains :comparator \"i;octet\" \"Subject\"\n   \"MAKE MONEY FAST\" {\n      discard;\n}\n",
                "if@1 header@1 :contains@1 :comparator@1 \"i;octet\"1 \"Subject\"1 \"MAKE MONEY FAST\"2{discard@3;}",
            ),
            (
                b"require \"fileinto\";\nif header :contains \"from\" \"coyote\" {\n   discard;\n} elsif header :contains [\"subject\"] [\"$$$\"] {\n   discard;\n} else {\n   fileinto \"INBOX\";\n}\n",
                "require@1 \"fileinto\"1;if@2 header@2 :contains@2 \"from\"2 \"coyote\"2{discard@3;}elsif@4 header@4 :contains@4 [\"subject\"4] [\"$$$\"4]{discard@5;}else@6{fileinto@7 \"INBOX\"7;}",
            ),
            (
                b"# Declare any optional features\n#\nrequire [\"fileinto\"];\n\nif header :is \"Sender\" \"owner-ietf-mta-filters@imc.org\"\n        {\n        fileinto \"filter\";  # move to \"filter\" mailbox\n        }\nelsif address :DOMAIN :is [\"From\", \"To\"] \"example.com\"\n        {\n        keep;               # keep in \"In\" mailbox\n        }\n",
                "require@3 [\"fileinto\"3];if@5 header@5 :is@5 \"Sender\"5 \"owner-ietf-mta-filters@imc.org\"5{fileinto@7 \"filter\"7;}elsif@9 address@9 :DOMAIN@9 :is@9 [\"From\"9\"To\"9] \"example.com\"9{keep@11;}",
            ),
            (
                b"if anyof (NOT address :all :contains\n               [\"To\", \"Cc\", \"Bcc\"] \"me@example.com\",\n             header :matches \"subject\"\n               [\"*make*money*fast*\", \"*university*dipl*mas*\"])\n        {\n        fileinto \"spam\";   # move to \"spam\" mailbox\n        }\nelse\n        {\n        # Move all other (non-company) mail to \"personal\"\n        # mailbox.\n        fileinto \"personal\";\n        }\n",
                "if@1 anyof@1 (NOT@1 address@1 :all@1 :contains@1 [\"To\"2\"Cc\"2\"Bcc\"2] \"me@example.com\"2,header@3 :matches@3 \"subject\"3 [\"*make*money*fast*\"4\"*university*dipl*mas*\"4],){fileinto@6 \"spam\"6;}else@8{fileinto@12 \"personal\"12;}",
            ),
        ],
    )
}
