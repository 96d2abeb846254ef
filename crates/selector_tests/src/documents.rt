//! Documents, and what each selector matches in them (Selectors 4, sections 5, 6, 14 and 15).

/// A line has a document, a selector list, and the ids of the elements that it matches, in document
/// order. Ids count from 0 on, texts too.
pub(crate) const MATCHED: &str =
    r#"["ul",["li"],["li"],["li"]] => li:nth-child(2n+1):not(:last-child) => 1
["ul",["li"],["li"],["li"]] => :is(li:zz, ul) => 0
["ul",["li"],["li"],["li"]] => li:not(:is()) => 1 2 3
["div",["p",{"class":"a b"}],["p"],["q"]] => .a ~ q, p:nth-last-of-type(1) => 2 3
["div",["p",{"class":"a b"}],["p"],["q"]] => ::before => 
["div",["p",{"class":"a b"}],["p"],["q"]] => * => 0 1 2 3
["div",["p",{"class":"a b"}],["p"],["q"]] => P => 
["div",["p",{"id":"x"}],["p",{"id":"x y"}]] => #x => 1
["r",["a",{"class":"pastoral blue aqua marine"}],["a",{"class":"pastoral blue"}],["a",{"class":"pastorals"}]] => .pastoral.marine => 1
["r",["a",{"class":"past"}],["a",{"class":"pastoral\tblue\fmarine\naqua\rred"}],["a",{"class":" blue "}]] => .blue => 2 3
["r",["a",{"class":"x\u00a0y"}],["a",{"class":"xy"}],["a",{"class":"x-y"}]] => .x, .y => 
["r",["a",{"class":"x\u00a0y"}]] => .x\a0 y => 1
["r",["a",{"class":""}],["a"]] => [class] => 1
["r",["a",{"t":"hello world"}],["a",{"t":"hello"}],["a",{"t":"helloworld"}]] => [t=hello] => 2
["r",["a",{"t":"hello world"}],["a",{"t":"hello"}],["a",{"t":"helloworld"}]] => [t~=hello] => 1 2
["r",["a",{"t":"hello world"}],["a",{"t":""}],["a"]] => [t~=""] => 
["r",["a",{"t":"hello world"}],["a",{"t":""}],["a"]] => [t~="hello world"] => 
["r",["a",{"t":"en"}],["a",{"t":"en-US"}],["a",{"t":"english"}],["a",{"t":"x-en"}]] => [t|=en] => 1 2
["r",["a",{"t":""}],["a",{"t":"-x"}],["a",{"t":"x"}]] => [t|=""] => 1 2
["r",["a",{"t":"größe"}],["a",{"t":"gr"}],["a",{"t":"egrö"}]] => [t^=grö] => 1
["r",["a",{"t":"größe"}],["a",{"t":"ße"}],["a",{"t":"ßen"}]] => [t$=ße] => 1 2
["r",["a",{"t":"größe"}],["a",{"t":"öß"}],["a",{"t":"ö-ß"}]] => [t*=öß] => 1 2
["r",["a",{"t":"größe"}],["a",{"t":""}]] => [t^=""], [t$=""], [t*=""] => 
["p","x",["b"],"y",["i"]] => b:first-child, i:last-child, i:nth-child(2) => 2 4
["p","x",["b"],"y",["i"]] => b + i => 4
["p","x",["b"],"y",["i"]] => p > b ~ i => 4
["p","x",["b"],"y"] => :only-child => 0 2
["p","x",["b"],"y"] => :root:first-child:last-child:only-of-type => 0
["p",["b"],["i"]] => :root => 0
["p",["b"],["i"]] => p:nth-child(2n), p:nth-child(0n) => 
["ul",["li"],["li"],["li"],["li"],["li"]] => li:nth-child(-n+3) => 1 2 3
["ul",["li"],["li"],["li"],["li"],["li"]] => li:nth-child(n+4) => 4 5
["ul",["li"],["li"],["li"],["li"],["li"]] => li:nth-child(2) => 2
["ul",["li"],["li"],["li"],["li"],["li"]] => li:nth-child(even) => 2 4
["ul",["li"],["li"],["li"],["li"],["li"]] => li:nth-child(-2n+4) => 2 4
["ul",["li"],["li"],["li"],["li"],["li"]] => li:nth-child(3n-1) => 2 5
["ul",["li"],["li"],["li"],["li"],["li"]] => li:nth-child(0), li:nth-child(-3) => 
["ul",["li"],["li"],["li"],["li"],["li"]] => li:nth-last-child(2) => 4
["dl",["dt"],["dd"],["dd"],["dt"],["dd"]] => :nth-of-type(2) => 3 4
["dl",["dt"],["dd"],["dd"],["dt"],["dd"]] => :nth-last-of-type(2) => 1 3
["dl",["dt"],["dd"],["dd"],["dt"],["dd"]] => dd:first-of-type, dt:last-of-type => 2 4
["dl",["dt"],["dd"]] => dl :only-of-type => 1 2
["a",["b",["c"]]] => a > c => 
["a",["b",["c"]]] => a c, a > b > c => 2
["q",["x",["a",["y",["a",["b"]]]]]] => x > a b => 5
["q",["x",["a",["y",["a",["b"]]]]]] => q a y a b => 5
["q",["x",["a",["y",["a",["b"]]]]]] => x > y b, a > b a => 
["r",["x"],["a"],["y"],["a"],["b"]] => x + a ~ b => 5
["r",["x"],["a"],["y"],["a"],["b"]] => y + a + b, x ~ y => 3 5
["r",["x"],["a"],["y"],["a"],["b"]] => x + b, a + y ~ x => 
["r",["x",["a"]],["y",["a"]],["z",["a",["b"]]]] => x + y + z b => 7
["r",["x"],["s",["y"],["t",["b"]]]] => x + s > y ~ t b, x ~ s y + t > b => 5
["r",["x"],["s",["t",["b"]],["t",["b"]]]] => x ~ s > t + t > b => 6
["r",["x"],["s",["t",["b"]],["t",["b"]]]] => s:not(x ~ s) b => 
["r",["a",["b"]],["c",["b"]]] => :is(a, c:not(.k)) > b:not(:root) => 2 4
["r",["a",["b"]],["c",["b"]]] => :where(:not(a)) > b => 4
["r",["a"],["b"]] => a:hover, b:link => 
["r",["a"],["b"]] => a:not(:hover) => 1
["r",["a"],["b"]] => a::before, b::-webkit-x => "#;
