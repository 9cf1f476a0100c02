//! What every page has: its style, what filters it, and its script.

/// What stands before the picture.
pub const FRONT: &[u8] = b"<!DOCTYPE html>\n\
<html lang=\"en\"><head><meta charset=\"utf-8\"><meta name=\"viewport\" content=\"width=device-width,initial-scale=1\">\n\
<title>A run of agents</title><style>\n\
:root{color-scheme:light dark;--back:#fff;--text:#24292f;--soft:#57606a;--edge:#afb8c1;--box:#f6f8fa;--mail:#0550ae;--does:#6639ba;--done:#0a5c2b;\
--failed:#953800;--drops:#b3202a;--on:#fff3b0}\n\
@media(prefers-color-scheme:dark){:root{--back:#0d1117;--text:#e6edf3;--soft:#9ba5b0;--edge:#57606a;--box:#161b22;--mail:#79c0ff;--does:#d2a8ff;\
--done:#7ee787;--failed:#ffa657;--drops:#ff8f88;--on:#4b3f00}}\n\
body{margin:0 1rem 4rem;background:var(--back);color:var(--text);font:14px/1.4 ui-monospace,Menlo,Consolas,'DejaVu Sans Mono',monospace}\n\
h1{font-size:1.2rem}h2{font-size:1.05rem}h3{font-size:1rem;margin:1rem 0 .2rem}\
ol,ul{list-style:none;margin:0;padding:0}li{overflow-wrap:anywhere;padding:0 .3rem;scroll-margin-top:10rem}\n\
.at{display:inline-block;min-width:4.5ch;margin-right:1ch;color:var(--soft);text-align:right}.end{margin:.2rem 0;font-weight:bold}\
.small{color:var(--soft);overflow-wrap:anywhere}.name{font-weight:bold}\n\
.sign{width:11px;height:12px;margin-right:.6ch;overflow:visible}li.say{font-weight:bold}li.mail{color:var(--mail)}li.does{color:var(--does)}\
li.done{color:var(--done)}li.failed{color:var(--failed);font-weight:bold}li.drops{color:var(--drops);font-weight:bold}li.rule{color:var(--soft)}\n\
li.mind{color:var(--text)}.mind details{display:inline-block;vertical-align:top;max-width:calc(100% - 14ch)}.mind summary{cursor:pointer;color:var(--soft)}\
.mind div{white-space:pre-wrap;overflow-wrap:anywhere}.mind .turn{color:var(--soft)}.mind .part{font-weight:bold}.mind .gone{color:var(--drops)}\
.mind .new{color:var(--done)}\
li.on,li:target{background:var(--on)}li.now{outline:2px solid var(--text)}a{color:var(--mail)}\
.merged li::before{content:attr(data-name) ' ';font-weight:bold}\n\
.picture{overflow:auto;max-height:70vh;border:1px solid var(--edge)}.turns{width:100%;height:48px;border:1px solid var(--edge);margin:.5rem 0;padding:0}\n\
#filter{position:sticky;top:0;background:var(--back);border-bottom:1px solid var(--edge);padding:.4rem 0;z-index:1}\
#filter fieldset{display:inline-block;border:1px solid var(--edge);max-height:6.5rem;overflow:auto;vertical-align:top}\
@media(max-width:600px),(max-height:600px){#filter{position:static}li{scroll-margin-top:2rem}}\
#filter label{display:inline-block;margin-right:1ch}[hidden]{display:none!important}\
:focus-visible{outline:2px solid var(--mail);outline-offset:1px}\n\
.picture .dim{opacity:.15}.picture .on{text-decoration:underline;font-weight:bold}.picture g.on .arrow{stroke-width:3}\n\
@media(prefers-color-scheme:dark){.picture svg .paper,.picture svg .quiet,.picture svg .lost{fill:var(--back)}\
.picture svg .cycle{fill:var(--box);stroke:var(--edge)}\
.picture svg text{fill:var(--text);stroke:var(--back)}.picture svg text.small,.picture svg .rule{fill:var(--soft)}.picture svg .mail{fill:var(--mail)}\
.picture svg .does{fill:var(--does)}.picture svg .done{fill:var(--done)}.picture svg .failed{fill:var(--failed)}\
.picture svg .drops,.picture svg .bad{fill:var(--drops)}.picture svg .bar{stroke:var(--text)}.picture svg .lane{stroke:var(--edge)}\
svg g[class^=c],svg rect[class^=c]:not(.cycle),.sign,.picture svg use{filter:brightness(1.9) saturate(.8)}}\n\
</style></head>\n<body><h1>A run of agents</h1>\n<div class=\"picture\" tabindex=\"0\" role=\"region\" aria-label=\"picture\">\n";

/// What stands between the bar and the lines.
pub const FILTER: &[u8] =
    b"<form id=\"filter\" hidden><label>text <input id=\"text\" type=\"search\"></label>\
<label><input id=\"merge\" type=\"checkbox\"> in the order of turns</label> <output id=\"count\"></output> keys: j next turn, k turn before<br>\
<fieldset id=\"agents\"><legend>agents</legend></fieldset><fieldset id=\"kinds\"><legend>lines</legend></fieldset></form>\n\
<main><h2>What the agents did</h2><p class=\"small\">each line behind its turn and its cycle</p>\n";

/// What stands behind the lines.
pub const SCRIPT: &[u8] = b"</main>\n<script>\n(()=>{\n\
const all=(q,n)=>[...(n||document).querySelectorAll(q)],get=i=>document.getElementById(i);\n\
const rows=all('.trace li'),names={},form=get('filter'),text=get('text'),traces=get('traces');\n\
all('.trace').forEach(s=>names[s.dataset.agent]=s.querySelector('h3').textContent);\n\
rows.forEach((r,i)=>{r.dataset.name=names[r.dataset.agent];r.home=r.parentNode;r.order=i});\n\
const order=[...rows].sort((a,b)=>(+a.dataset.turn||1e18)-(+b.dataset.turn||1e18)||a.order-b.order);\n\
const fill=(id,list)=>{const put=(v,t)=>{const l=document.createElement('label'),b=document.createElement('input');\
b.type='checkbox';b.checked=true;b.value=v;l.append(b,' '+t);get(id).append(l);return b};\
if(list.length>3)put('','all').addEventListener('input',e=>all('input',get(id)).forEach(b=>b.checked=e.target.checked));\
list.forEach(([v,t])=>put(v,t));};\n\
fill('agents',Object.entries(names));fill('kinds',[...new Set(rows.map(r=>r.dataset.kind))].map(k=>[k,k]));\n\
const marks=r=>[r,get('t'+r.id.slice(1)),get('m'+r.id.slice(1))].filter(x=>x);\n\
const ticked=id=>new Set(all('input:checked',get(id)).map(b=>b.value));\n\
const show=()=>{const a=ticked('agents'),k=ticked('kinds'),t=text.value.toLowerCase();let n=0;rows.forEach(r=>{\
const on=a.has(r.dataset.agent)&&k.has(r.dataset.kind)&&r.textContent.toLowerCase().includes(t);r.hidden=!on;n+=on;\
marks(r).slice(1).forEach(x=>x.classList.toggle('dim',!on))});\
all('.trace').forEach(s=>s.hidden=!a.has(s.dataset.agent));get('count').textContent=n+' of '+rows.length+' lines'};\n\
const merged=document.createElement('ol');merged.className='merged';merged.hidden=true;traces.prepend(merged);\n\
get('merge').addEventListener('change',e=>{merged.hidden=!e.target.checked;\
(e.target.checked?order:rows).forEach(r=>(e.target.checked?merged:r.home).append(r))});\n\
form.addEventListener('input',show);form.addEventListener('submit',e=>e.preventDefault());form.hidden=false;show();\n\
const other=r=>{const a=r.querySelector('a.other');return a&&get(a.hash.slice(1))};\n\
const row=e=>{const x=e.target.closest&&e.target.closest('.trace li,.merged li,text[id]');return x&&(x.id[0]==='l'?x:get('l'+x.id.slice(1)))};\n\
const point=on=>e=>{const r=row(e);if(r)[r,other(r)].forEach(x=>x&&marks(x).forEach(m=>m.classList.toggle('on',on)))};\n\
['mouseover','focusin'].forEach(n=>document.addEventListener(n,point(true)));\n\
['mouseout','focusout'].forEach(n=>document.addEventListener(n,point(false)));\n\
let turn=0;const step=d=>{const seen=order.filter(r=>!r.hidden&&r.dataset.turn>0),next=d>0?seen.find(r=>+r.dataset.turn>turn):\
seen.reverse().find(r=>+r.dataset.turn<turn);if(!next)return;turn=+next.dataset.turn;\
rows.forEach(r=>r.classList.toggle('now',+r.dataset.turn===turn));const t=get('t'+next.id.slice(1));if(t)t.scrollIntoView({block:'center',inline:'nearest'});\
next.focus({preventScroll:true});next.scrollIntoView({block:'center'})};\n\
addEventListener('keydown',e=>{if(e.ctrlKey||e.metaKey||e.altKey||e.target===text)return;if(e.key==='j')step(1);if(e.key==='k')step(-1)});\n\
document.title=decodeURI(location.pathname.split('/').pop()||document.title)\n\
})()\n</script></body>";
