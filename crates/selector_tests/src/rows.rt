//! Selector lists, valid and not: most are the standard's own examples.

/// Texts, each with the selector list that it spells, in one way of writing: all white space but the
/// descendant combinator's is one space around other combinators and after commas, `An+B` is
/// `(An,B)`, a pseudo-class of what a user does is `:unmatched`, and a pseudo-element `::element`.
pub(crate) const VALID: &str = r#"* => *
LI => LI
UL LI => UL LI
UL OL+LI => UL OL + LI
H1 + *[REL=up] => H1 + *[REL=up]
UL OL LI.red => UL OL LI.red
LI.red.level => LI.red.level
#x34y => #x34y
#s12:not(FOO) => #s12:not(FOO)
.foo :is(.bar, #baz) => .foo :is(.bar, #baz)
h1, h2, h3 => h1, h2, h3
h1,h2 , h3 => h1, h2, h3
 h1  => h1
/**/h1/**/ => h1
\68 1 => h1
a:not([href]) => a:not([href])
*:not(FOO) => *:not(FOO)
button:not([DISABLED]) => button:not([DISABLED])
:not(a, .b c) => :not(a, .b c)
:not( a > b ) => :not(a > b)
:not(:not(a)) => :not(:not(a))
li:not(a => li:not(a)
:is(h1, h2):where(.test, #a) => :is(h1, h2):where(.test, #a)
:is() => :is()
:where( ) => :where()
:is(a,,b) => :is(a, b)
:is(li:zz, ul) => :is(ul)
:is(::before, a) => :is(a)
:is(>a, b>, c) => :is(c)
:IS(a):Where(b):NOT(c) => :is(a):where(b):not(c)
:is(:is(:not(a b))) => :is(:is(:not(a b)))
h1[title] => h1[title]
span[class="example"] => span[class=example]
span[hello="Cleveland"][goodbye="Columbus"] => span[hello=Cleveland][goodbye=Columbus]
a[rel~="copyright"] => a[rel~=copyright]
a[hreflang=fr] => a[hreflang=fr]
a[hreflang|="en"] => a[hreflang|=en]
[a|=""] => [a|=]
object[type^="image/"] => object[type^=image/]
a[href$=".html"] => a[href$=.html]
p[title*="hello"] => p[title*=hello]
[ a ] => [a]
[ a ~= b ] => [a~=b]
[a~/**/=b] => [a~=b]
[a="b => [a=b]
[a => [a]
*.pastoral => *.pastoral
.pastoral => .pastoral
p.pastoral.marine => p.pastoral.marine
h1#chapter1 => h1#chapter1
*#z98y => *#z98y
#a#b.c => #a#b.c
a:root:first-child:last-child:only-child => a:root:first-child:last-child:only-child
:first-of-type:last-of-type:only-of-type => :first-of-type:last-of-type:only-of-type
:FIRST-child => :first-child
a:hover:link:VISITED => a:unmatched:unmatched:unmatched
:any-link:target:active:focus => :unmatched:unmatched:unmatched:unmatched
:focus-visible:focus-within:checked => :unmatched:unmatched:unmatched
:disabled:enabled:required:optional => :unmatched:unmatched:unmatched:unmatched
:valid:invalid => :unmatched:unmatched
p::first-line => p::element
p:first-letter => p::element
::before => ::element
a:AFTER => a::element
a::marker b::selection c::placeholder => a::element b::element c::element
a::before > b => a::element > b
::-webkit-x(y z) => ::element
a:hover::-WebKit-scrollbar => a:unmatched::element
h1 em => h1 em
div * p => div * p
div p *[href] => div p *[href]
body > p => body > p
div ol>li p => div ol > li p
math + p => math + p
h1.opener + h2 => h1.opener + h2
h1 ~ pre => h1 ~ pre
a/**/ /**/b => a b
a/**/.b => a.b
tr:nth-child(2n+1) => tr:nth-child(2n,1)
tr:nth-child(odd) => tr:nth-child(2n,1)
tr:nth-child(EVEN) => tr:nth-child(2n,0)
:nth-child(10n-1) => :nth-child(10n,-1)
:nth-child(10N+9) => :nth-child(10n,9)
:nth-child( 3n + 1 ) => :nth-child(3n,1)
:nth-child( +3n - 2 ) => :nth-child(3n,-2)
:nth-child( -n+ 6) => :nth-child(-1n,6)
:nth-child( +6 ) => :nth-child(0n,6)
:nth-child(0n+5) => :nth-child(0n,5)
:nth-child(5) => :nth-child(0n,5)
:nth-child(-5) => :nth-child(0n,-5)
bar:nth-child(1n+0) => bar:nth-child(1n,0)
bar:nth-child(n) => bar:nth-child(1n,0)
:nth-child(+/**/n) => :nth-child(1n,0)
:nth-child(2n/**/-/**/1) => :nth-child(2n,-1)
:nth-child(n-03) => :nth-child(1n,-3)
:nth-child(-n- 3) => :nth-child(-1n,-3)
:nth-child(\6e) => :nth-child(1n,0)
tr:nth-last-child(-n+2) => tr:nth-last-child(-1n,2)
img:nth-of-type(2n+1) => img:nth-of-type(2n,1)
body > h2:nth-of-type(n+2):nth-last-of-type(n+2) => body > h2:nth-of-type(1n,2):nth-last-of-type(1n,2)
body > h2:not(:first-of-type):not(:last-of-type) => body > h2:not(:first-of-type):not(:last-of-type)"#;

/// Texts that spell no selector list.
pub(crate) const INVALID: &str = r#"
 
,
h1,
,h1
h1, h2..foo, h3
h1, ,h3
> p
p >
p > > q
p ~ + q
a..b
a.
.
.1
#
#1
a b.
*|a
|a
a|b
[a|b]
[*|a]
*|*:is(:hover, :focus)
html|*:not(:link):not(:visited)
[]
[a=]
[a=1]
[a=b c]
[a=b i]
[a~ =b]
[a|]
[|a]
[a!=b]
(a)
{a}
a()
a b()
.a b*
*a
.a*
[a]b
:is(a)b
:is(a)*
:
::
a:
a::
: hover
a :
:: before
:zz
::zz
:has(a)
:empty
:hover()
:is
:not
:not()
:not( )
:not(a,)
:not(:zz)
p:not(:zz)
:not(::before)
:not(a, b::after)
:is(a:not(::before)) b:not()
:-webkit-x
::webkit-x
::before::after
::before:hover
::before.a
::first-line*
a:before b:after::marker
::before()
:nth-child
:nth-child()
:nth-child(3 n)
:nth-child(+ 2n)
:nth-child(+ 2)
:nth-child(+/**/2n)
:nth-child(+/**/5)
:nth-child(2/**/n)
:nth-child(10n+-1)
:nth-child(n+ -1)
:nth-child(n 1)
:nth-child(n+)
:nth-child(n-1 2)
:nth-child(2.0)
:nth-child(2.5n)
:nth-child(odd 1)
:nth-child(2n of a)
:nth-child(a)
:nth-child(n, n)
:nth-zz(n)
a;b
a!
@a
"a"
1
1px
50%
url(a)
a)
<!--a"#;
