//! The style of the page. It loads nothing, and the policy of the page has its SHA-256.

/// What stands between `<style>` and its end, after an LF.
pub(crate) const STYLE: &str =
    r##":root{--bg:#f6f7f8;--card:#fff;--ink:#16202a;--dim:#52606d;--line:#d5dbe1;--code:#e9eef3;--a:#a3101c;--abg:#fdebec;--b:#7a4a00;--bbg:#fff2d6;--c:#0a4f7d;--cbg:#e4f1fb;--p:#54457f;--pbg:#efebf9;--ok:#12603a;--okbg:#e3f5ea;--on:#24506e;--link:#0b5394;color-scheme:light}
@media screen and (prefers-color-scheme:dark){:root{--bg:#12161a;--card:#1a2026;--ink:#e4e9ee;--dim:#a3afbb;--line:#323c46;--code:#29323b;--a:#ff9a9f;--abg:#3a1a1d;--b:#f3c56b;--bbg:#362a0e;--c:#8ecbf5;--cbg:#12293b;--p:#c5b5f5;--pbg:#2a2440;--ok:#84d8a5;--okbg:#12301f;--on:#a9d3f0;--link:#8ec5f8;color-scheme:dark}}
*{box-sizing:border-box}
html{font:15px/1.5 system-ui,-apple-system,"Segoe UI",Roboto,"Noto Sans","Liberation Sans",Arial,sans-serif;background:var(--bg);color:var(--ink);-webkit-text-size-adjust:100%;scroll-padding-top:.8rem}
body{max-width:1240px;margin:0 auto;padding:0 20px 60px}
h1{font-size:1.9rem;line-height:1.2;margin:.1em 0 .5em;overflow-wrap:anywhere;letter-spacing:-.01em}
h2{font-size:1.35rem;line-height:1.25;margin:2.4em 0 .6em;padding-top:.5em;border-top:3px solid var(--ink)}
h3{font-size:1rem;margin:1.5em 0 .4em;overflow-wrap:anywhere}
p{margin:.4em 0}
a{color:var(--link);text-underline-offset:2px}
a:focus-visible,input:focus-visible{outline:3px solid var(--link);outline-offset:2px}
code,samp,kbd{font:0.875em/1.45 ui-monospace,SFMono-Regular,Menlo,Consolas,"DejaVu Sans Mono","Liberation Mono",monospace;font-variant-ligatures:none;overflow-wrap:anywhere}
code{background:var(--code);color:var(--ink);border-radius:3px;padding:.08em .3em;white-space:break-spaces;unicode-bidi:isolate;-webkit-box-decoration-break:clone;box-decoration-break:clone}
a code{color:inherit}code:empty::before{content:"(empty)";color:var(--dim)}
kbd{border:1px solid var(--line);border-radius:3px;padding:.08em .35em}
.skip{position:absolute;left:-999em}.skip:focus{left:12px;top:8px;background:var(--card);padding:.4em .8em}
header{padding-top:26px}
.org{color:var(--dim);font-size:.87rem;margin:0}
.says{color:var(--dim);max-width:75em}
.verdict{font-size:1.15rem;font-weight:600;border-left:6px solid;border-radius:4px;padding:.7em 1em;margin:.2em 0 1.1em}
.verdict.a{color:var(--a);background:var(--abg)}.verdict.ok{color:var(--ok);background:var(--okbg)}
.dot{display:inline-block;width:.72em;height:.72em;margin-right:.5em;background:currentColor;vertical-align:-.02em}
.a>.dot{clip-path:polygon(50% 0,100% 100%,0 100%)}.b>.dot{clip-path:polygon(50% 0,100% 50%,50% 100%,0 50%)}.ok>.dot,.c>.dot{border-radius:50%}
.tiles{display:flex;flex-wrap:wrap;gap:10px;list-style:none;margin:0 0 1em;padding:0}
.tiles li{background:var(--card);border:1px solid var(--line);border-radius:6px;padding:.5em .95em;color:var(--dim);font-size:.87rem;flex:1 1 auto}
.tiles b{display:block;font-size:1.5rem;line-height:1.2;color:var(--ink);font-variant-numeric:tabular-nums}
.asked{display:grid;grid-template-columns:max-content 1fr;gap:.15em 1.2em;margin:0 0 .9em}
.asked dt{color:var(--dim)}.asked dd{margin:0;overflow-wrap:anywhere}
nav{display:flex;flex-wrap:wrap;gap:.3em 1.3em;border-top:1px solid var(--line);border-bottom:1px solid var(--line);padding:.55em 0;margin-top:1em}
#mend h3{display:flex;align-items:baseline;font-size:1.1rem;margin:1.5em 0 0}
h3.a{color:var(--a)}h3.b{color:var(--b)}h3.c{color:var(--c)}h3.p{color:var(--p)}
.codes{margin:.5em 0}
.codes dt{display:grid;grid-template-columns:3.2em 3.4em 9em 1fr;align-items:baseline;gap:.2em .7em;margin-top:.8em}
.codes dd{margin:0 0 0 calc(6.6em + 1.4em)}
.cd,.n{font-variant-numeric:tabular-nums}.codes .n{text-align:right;font-weight:600}
.bar{width:100%;height:.75em;background:var(--code);border-radius:2px}
.a+.says+.codes .bar{fill:var(--a)}.b+.says+.codes .bar{fill:var(--b)}.c+.says+.codes .bar{fill:var(--c)}.p+.says+.codes .bar{fill:var(--p)}
.mean{font-weight:600}
:is(dd,article)>p+p{line-height:1.75;word-spacing:.35em;max-height:12.3em;overflow:auto}
:is(dd,article)>p+p a{white-space:nowrap;word-spacing:0;text-decoration-color:var(--line)}:is(dd,article)>p+p a:hover{text-decoration-color:currentColor}:is(dd,article)>p+p a code{white-space:pre;background:none;padding:0}
article{background:var(--card);border:1px solid var(--line);border-radius:6px;padding:.7em 1em;margin:.7em 0}
article h3{margin:0;max-height:4.6em;overflow:auto}article>p{color:var(--dim);margin:.1em 0 .5em;font-size:.93em}
i{color:var(--dim)}
.ln>td:nth-child(3){white-space:nowrap}
.ln>td>b,.ln>td>i:empty{display:inline-block;min-width:3em;font-size:.8rem;line-height:1.5;text-align:center;border-radius:3px;margin:1px 2px 1px 0;padding:0 .25em}
.ln>td>b{font-weight:600;color:var(--on);border:1px solid var(--on)}.ln>td>i:empty{border:1px dashed var(--line)}.ln>td>i:empty::before{content:"\A0"}
.nl{color:var(--dim)}
.ln>td>b.no{border-style:dashed;color:var(--dim);border-color:var(--dim)}
table{border-collapse:collapse;width:100%}
th,td{text-align:left;vertical-align:top;padding:.4em .6em;border-bottom:1px solid var(--line)}
thead th{font-size:.82rem;color:var(--dim);font-weight:600;border-bottom:2px solid var(--line)}
td.n,.reg th:nth-child(n+2):nth-child(-n+5){text-align:right;font-variant-numeric:tabular-nums}
caption{text-align:left;color:var(--dim);padding:.3em 0 .6em;caption-side:top}
.mx{background:var(--card);border:1px solid var(--line);border-radius:6px;margin:.8em 0 1.6em}
.mx caption{padding:.4em 0}.mx th,.mx td{padding:.16em .6em;border-color:transparent}.mx tbody th{font-weight:400;max-width:15em;width:15em;white-space:nowrap;overflow:hidden;text-overflow:ellipsis}.mx tbody th samp{font-size:.8em}.mx tbody th code{white-space:pre;background:none;padding:0}.mx td.n{width:4em}
.strip{display:block;width:100%;height:1.35em;background:var(--code)}.full{fill:var(--on)}
.fl{background:var(--card);border:1px solid var(--line);border-radius:6px;padding:.2em 1em .8em;margin:1em 0}
.t{content-visibility:auto}.fl>.t{contain-intrinsic-size:auto 30em}
.fl h3{margin:.7em 0 0}.fl h3 code{background:none;padding:0;font-size:1em;font-weight:700}.fl>p{color:var(--dim);margin:.1em 0 .5em}
.fl table{table-layout:fixed}.fl thead th:nth-child(1){width:4em}.fl thead th:nth-child(2){width:36%}.fl thead th:nth-child(3){width:17.5em}
.ln>th{font-weight:400;color:var(--dim);font-variant-numeric:tabular-nums;border-left:4px solid transparent}
.ln.p>th{border-color:var(--line) var(--line) var(--line) var(--p)}.ln.c>th{border-left-color:var(--c)}.ln.b>th{border-left-color:var(--b)}.ln.a>th{border-left-color:var(--a)}
.ln:last-child>*{border-bottom:0}
.ln:target,article:target,.fl:target{outline:3px solid var(--link);outline-offset:-1px}
.ln>td:nth-child(2){overflow-wrap:anywhere}.ln samp,.ln span{color:var(--dim);font-size:.82rem}.ln span{white-space:nowrap}.ln code+span,.ln i+span{margin-left:.35em}
.ln code{display:inline-block;max-height:9em;overflow:auto;max-width:100%;vertical-align:top}
.ln p{margin:0 0 .2em;overflow-wrap:anywhere}
.f{border-radius:3px;padding:.15em .5em;border-left:3px solid}
.f.p{color:var(--p);background:var(--pbg)}.f.c{color:var(--c);background:var(--cbg)}.f.b{color:var(--b);background:var(--bbg)}.f.a{color:var(--a);background:var(--abg)}.f a{color:inherit}
strong.a{color:var(--a)}
#lines>input{margin:0;vertical-align:-.1em}#lines>label{white-space:nowrap;margin-right:1em;line-height:1.9}.show{margin-right:.6em}#lines>label::before{content:"\A0"}
#lines>input:checked+label{font-weight:600}
@media screen{
#s1:checked~.all .fl:not(.F1),#s1:checked~.all .ln:not(.F1),
#s2:checked~.all .fl:not(.F2),#s2:checked~.all .ln:not(.F2),
#s3:checked~.all .fl:not(.F3),#s3:checked~.all .ln:not(.F3),
#s4:checked~.all .fl:not(.F4),#s4:checked~.all .ln:not(.F4),
#s5:checked~.all .fl:not(.F5),#s5:checked~.all .ln:not(.F5),
#s6:checked~.all .fl:not(.F6),#s6:checked~.all .ln:not(.F6),
#s7:checked~.all .fl:not(.F7),#s7:checked~.all .ln:not(.F7),
#s8:checked~.all .fl:not(.F8),#s8:checked~.all .ln:not(.F8),
#s9:checked~.all .fl:not(.F9),#s9:checked~.all .ln:not(.F9),
#s10:checked~.all .fl:not(.F10),#s10:checked~.all .ln:not(.F10),
#s11:checked~.all .fl:not(.F11),#s11:checked~.all .ln:not(.F11),
#s12:checked~.all .fl:not(.F12),#s12:checked~.all .ln:not(.F12),
#s13:checked~.all .fl:not(.F13),#s13:checked~.all .ln:not(.F13),
#s14:checked~.all .fl:not(.F14),#s14:checked~.all .ln:not(.F14),
#s15:checked~.all .fl:not(.F15),#s15:checked~.all .ln:not(.F15),
#s16:checked~.all .fl:not(.F16),#s16:checked~.all .ln:not(.F16),
#s17:checked~.all .fl:not(.F17),#s17:checked~.all .ln:not(.F17),
#s18:checked~.all .fl:not(.F18),#s18:checked~.all .ln:not(.F18),
#s19:checked~.all .fl:not(.F19),#s19:checked~.all .ln:not(.F19),
#s20:checked~.all .fl:not(.F20),#s20:checked~.all .ln:not(.F20),
#s21:checked~.all .fl:not(.F21),#s21:checked~.all .ln:not(.F21),
#s22:checked~.all .fl:not(.F22),#s22:checked~.all .ln:not(.F22),
#s23:checked~.all .fl:not(.F23),#s23:checked~.all .ln:not(.F23),
#s24:checked~.all .fl:not(.F24),#s24:checked~.all .ln:not(.F24),
#s25:checked~.all .fl:not(.F25),#s25:checked~.all .ln:not(.F25),
#s26:checked~.all .fl:not(.F26),#s26:checked~.all .ln:not(.F26),
#s27:checked~.all .fl:not(.F27),#s27:checked~.all .ln:not(.F27),
#s28:checked~.all .fl:not(.F28),#s28:checked~.all .ln:not(.F28),
#s29:checked~.all .fl:not(.F29),#s29:checked~.all .ln:not(.F29),
#s30:checked~.all .fl:not(.F30),#s30:checked~.all .ln:not(.F30),
#s31:checked~.all .fl:not(.F31),#s31:checked~.all .ln:not(.F31),
#s32:checked~.all .fl:not(.F32),#s32:checked~.all .ln:not(.F32),
#s33:checked~.all .fl:not(.F33),#s33:checked~.all .ln:not(.F33),
#s34:checked~.all .fl:not(.F34),#s34:checked~.all .ln:not(.F34),
#s35:checked~.all .fl:not(.F35),#s35:checked~.all .ln:not(.F35),
#s36:checked~.all .fl:not(.F36),#s36:checked~.all .ln:not(.F36),
#s37:checked~.all .fl:not(.F37),#s37:checked~.all .ln:not(.F37),
#s38:checked~.all .fl:not(.F38),#s38:checked~.all .ln:not(.F38),
#s39:checked~.all .fl:not(.F39),#s39:checked~.all .ln:not(.F39),
#s40:checked~.all .fl:not(.F40),#s40:checked~.all .ln:not(.F40){display:none}
}
.reg td,.reg th{padding:.25em .6em}.reg tbody th{font-weight:400;overflow-wrap:anywhere}.reg code{background:none;padding:0}.reg samp{font-size:.76rem}
.sg{max-width:60em}.sg td{border:1px solid var(--line);height:2.6em;width:38%;background:var(--card)}.sg thead td{border:0;background:none;width:24%}.sg tr:last-child td{height:4.5em}
footer{color:var(--dim);font-size:.87rem;margin-top:2em}
@media screen and (max-width:820px){
body{padding:0 12px 40px}h1{font-size:1.5rem}
.asked{grid-template-columns:1fr;gap:0}.asked dd{margin-bottom:.4em}
.tiles li{flex:1 1 28%;padding:.4em .7em}
.codes dt{grid-template-columns:2.6em 2.8em 1fr}.codes .mean{grid-column:1/-1}.codes dd{margin-left:0}
.mx tbody th{max-width:9.5em;width:9.5em}.mx td,.mx th{padding:.16em .35em}
.fl{padding:.2em .7em .6em}.fl table,.fl tbody,.reg,.reg tbody{display:block}.fl thead,.reg thead{position:absolute;left:-999em}
.ln{display:grid;grid-template-columns:3em 1fr;border-bottom:1px solid var(--line);padding:.35em 0}.ln:last-child{border:0}
.ln>*{border-bottom:0;padding:.15em .4em}.ln>td{grid-column:2}.ln>th{grid-row:1/span 3}
.reg tr{display:flex;flex-wrap:wrap;border-bottom:1px solid var(--line);padding:.3em 0}.reg th,.reg td{border:0;padding:.1em .4em}.reg tbody th,.reg td:last-child{flex-basis:100%}
.reg td.n::after{font-weight:400;color:var(--dim)}.reg td:nth-child(2)::after{content:" lines"}.reg td:nth-child(3)::after{content:" keys"}.reg td:nth-child(4)::after{content:" unreadable"}.reg td:nth-child(5)::after{content:" findings"}
.reg samp{word-break:break-all}.sg td{width:34%}
}
@media print{
@page{size:A4;margin:14mm 12mm 15mm;@bottom-left{content:"Review of SSH keys";font:7.5pt sans-serif;color:#444}@bottom-right{content:"page " counter(page) " of " counter(pages);font:7.5pt sans-serif;color:#444}}
:root{--bg:#fff;--line:#b8c0c8;--dim:#45515c}
html{font-size:8pt;line-height:1.3;background:#fff}body{max-width:none;padding:0}
*{print-color-adjust:exact;-webkit-print-color-adjust:exact}
nav,.skip,#lines>input,#lines>label,.show,.show~.says,#lines>.says{display:none}
h2{margin-top:1.2em}
.t{content-visibility:visible}article,.fl{border:0;border-top:1px solid var(--line);border-radius:0;padding:.25em 0;margin:.4em 0}
:is(dd,article)>p+p,.ln code{max-height:none;overflow:visible}.ln code{display:inline}:is(dd,article)>p+p{line-height:1.4}
article h3{max-height:2.8em;overflow:hidden}
h2,h3,.says{break-after:avoid}.ln,.codes dt,article h3{break-inside:avoid}
#keys,#lines,#files,#sign{break-before:page}#sign{break-inside:avoid}
a{color:inherit;text-decoration:none}
th,td{padding:.2em .4em}
:is(dd,article)>p+p{font-size:.93em}article>p+p::after{display:block;content:"\25A1 keep   \25A1 remove   \25A1 ask";white-space:pre;text-align:right}
.fl thead th:nth-child(1){width:3em}.fl thead th:nth-child(2){width:38%}.fl thead th:nth-child(3){width:16em}.ln>td>b,.ln>td>i:empty{font-size:6pt;line-height:1.25;min-width:2.8em}
.reg td,.reg th{padding:.12em .4em}.reg samp{font-size:5.8pt}.ln samp,.ln span{font-size:6.4pt}.ln samp{white-space:nowrap;letter-spacing:-.02em}
.mx tbody th{max-width:14em}.strip{height:1.1em}
}
"##;
